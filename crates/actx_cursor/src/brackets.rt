//! The bracket that closes another one.

ghost use Rattle.std.specs.Prelude.{◌≡◌, ◌+◌, ◌^◌, ◌<◌, ◌≤◌, IfSome};
ghost use Rattle.actx_grammar.specs.Reader as spec;
ghost use Rattle.actx_grammar.specs.Reads.{Reads};
ghost use Rattle.actx_grammar.specs.Tokens as tokens;
ghost use Rattle.actx_cursor.specs.Counts as counts;

use crate::cursor::Cursor;
use crate::words::kind_of;
use actx_grammar::{Bracket, Cause, Kind};
use actx_lex::Punct;
use actx_tree::Unread;

/// How many brackets are open behind a token of that kind, where `count` and one more are open before
/// it; `None` where that one is closed. The pieces of a template are brackets too.
fn open_after(bracket: Bracket, kind: Kind, count: usize) -> Option<usize>
    requires counts { count < 2 ^ 63 }
    ensures after { result ≡ tokens.open_after bracket kind count }
    ensures low { IfSome result (λ n. n ≤ count + 1) }
{
    match (bracket, kind) {
        (Bracket::Round, Kind::Sign(Punct::OpenParenthesis))
        | (Bracket::Square, Kind::Sign(Punct::OpenBracket))
        | (Bracket::Curly, Kind::Sign(Punct::OpenBrace))
        | (Bracket::Curly, Kind::Piece(true, false)) => Some(count + 1),
        (Bracket::Round, Kind::Sign(Punct::CloseParenthesis))
        | (Bracket::Square, Kind::Sign(Punct::CloseBracket))
        | (Bracket::Curly, Kind::Sign(Punct::CloseBrace))
        | (Bracket::Curly, Kind::Piece(false, true)) => less_one(count),
        _ => Some(count),
    }
}

/// One less, or nothing for 0.
fn less_one(count: usize) -> Option<usize>
    ensures { result ≡ counts.less_one count }
{
    if count == 0 { None } else { Some(count - 1) }
}

impl<'a> Cursor<'a> {
    /// The place behind the bracket that closes the one before the cursor.
    #[tactic(auto, unfolding(actx_grammar::specs::Tokens::after_brackets))]
    pub(crate) fn after_brackets(&self, bracket: Bracket) -> Option<Cursor<'a>>
        ensures { result ≡ tokens.after_brackets bracket self.now 0 }
    {
        let mut count = 0usize;
        let mut left = self.left;
        while let [token, rest @ ..] = left {
            match open_after(bracket, kind_of(&token.kind), count) {
                None => return Some(Cursor { left: rest }),
                Some(after) => count = after,
            }
            left = rest;
        }
        None
    }

    /// A block, from the bracket that opens it, passed over (ECMA-262 §15.2.1, FunctionBody).
    #[tactic(auto, unfolding(actx_grammar::specs::Reader::unread, actx_grammar::specs::Reader::inside, actx_grammar::specs::Reader::and_then, actx_grammar::specs::Reader::count))]
    pub fn unread(&mut self) -> Result<Unread, Cause>
        ensures { Reads (spec.unread self.old) result self.new }
    {
        self.open_brace()?;
        let from = self.len();
        match self.after_brackets(Bracket::Curly) {
            None => Err(Cause::NoTree),
            Some(after) => {
                let to = after.len();
                self.left = after.left;
                Ok(Unread { from, to })
            }
        }
    }
}
