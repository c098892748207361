//! The braces that are open, the innermost last: `true` is `${`, `false` is `{`.

ghost use Rattle.std.specs.Prelude.{◌≡◌, ◌++◌, ◌∷◌, [], OnOk};
ghost use Rattle.actx_lex.specs.TokenLists as lists;

use crate::token::{Punct, TokenKind};
use std::alloc::AllocError;

/// Whether the innermost open brace is `${`.
pub fn in_template(braces: &Vec<bool>) -> bool
    ensures { result ≡ lists.in_template braces.now.items }
{
    let count = braces.len();
    if count == 0 { false } else { braces[count - 1] }
}

/// Closes the innermost open brace, where there is one.
#[tactic(auto, unfolding(crate::specs::TokenLists::closed))]
fn close(braces: &mut Vec<bool>)
    ensures { braces.new.items ≡ lists.closed braces.old.items }
{
    let _ = braces.pop();
}

/// Opens a brace.
fn open(braces: &mut Vec<bool>, in_template: bool) -> Result<(), AllocError>
    ensures { OnOk result (braces.new.items ≡ braces.old.items ++ in_template ∷ []) }
{
    braces.push(in_template)?;
    Ok(())
}

/// The braces that are open after a token.
pub fn follow(braces: &mut Vec<bool>, kind: &TokenKind) -> Result<(), AllocError>
    ensures { OnOk result (braces.new.items ≡ lists.braces_after kind.now braces.old.items) }
{
    match kind {
        TokenKind::Template { opens, closes, .. } => {
            if *opens && !*closes {
                open(braces, true)?;
            } else if !*opens && *closes {
                close(braces);
            }
            Ok(())
        }
        TokenKind::Punct(Punct::OpenBrace) => open(braces, false),
        TokenKind::Punct(Punct::CloseBrace) => {
            close(braces);
            Ok(())
        }
        _ => Ok(()),
    }
}
