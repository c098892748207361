//! Lists with commas between their members.

ghost use Rattle.std.specs.Prelude.{};
ghost use Rattle.actx_grammar.specs.Reads.{Reads};
ghost use Rattle.actx_pattern.specs.Lists as lists;

use actx_cursor::Cursor;
use actx_grammar::{Bracket, Cause, Kind};
use actx_lex::Punct;

/// What stands behind a member of a list: true where a comma does, which is passed over, and false
/// where the closing bracket does.
///
/// # Errors
/// `NoTree` where neither does.
#[tactic(auto, unfolding(crate::specs::Lists::list_goes_on))]
pub fn list_goes_on(cursor: &mut Cursor<'_>, bracket: Bracket) -> Result<bool, Cause>
    ensures { Reads (lists.list_goes_on bracket cursor.old) result cursor.new }
{
    if matches!(cursor.next(), Kind::Sign(Punct::Comma)) {
        cursor.skip();
        return Ok(true);
    }
    if cursor.closes(bracket) {
        return Ok(false);
    }
    Err(Cause::NoTree)
}
