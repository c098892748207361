//! Where reading stopped, and why.

ghost use Rattle.std.specs.Prelude.{◌≡◌};
ghost use Rattle.actx_grammar.specs.Given.{FailsBy};

use actx_cursor::Cursor;
use actx_grammar::{Cause, ParseError};
use actx_lex::Token;

/// The number of units of the text before the token where so many tokens are left. It is a hint for
/// whoever reads the error: no clause speaks of it.
pub fn place(tokens: &[Token], left: usize) -> usize {
    match tokens.get(tokens.len().saturating_sub(left)) {
        Some(token) => token.from,
        None => match tokens.last() {
            Some(token) => token.to,
            None => 0,
        },
    }
}

/// The error of a cause, at the place of the cursor.
pub fn stopped(tokens: &[Token], cursor: &Cursor<'_>, cause: Cause) -> ParseError
    ensures { FailsBy cause result }
{
    let at = place(tokens, cursor.len());
    match cause {
        Cause::NoTree => ParseError::NoTree { at },
        Cause::TooNested => ParseError::TooNested { at },
        Cause::Memory => ParseError::Memory,
    }
}
