//! Where statements end, and what tells them apart.

ghost use Rattle.std.specs.Prelude.{◌≡◌, Ok};
ghost use Rattle.actx_grammar.specs.Reads.{Reads};
ghost use Rattle.actx_grammar.specs.Reader as reader;
ghost use Rattle.actx_program.specs.Ends as ends;
ghost use Rattle.actx_program.specs.StatementReader as spec;

use actx_cursor::{Cursor, goes_on_line, same_units};
use actx_grammar::{Cause, Kind, Word};
use actx_lex::{Punct, TokenKind};
use actx_text::as_units;
use actx_tree::{Class, Function, Target};

/// Whether nothing is left, or `}` comes.
pub fn ends_items(kind: Kind) -> bool
    ensures { result ≡ ends.ends_items kind }
{
    matches!(kind, Kind::End | Kind::Sign(Punct::CloseBrace))
}

/// Whether a statement may end here without a `;`.
#[tactic(auto, unfolding(actx_program::specs::Ends::may_end))]
fn may_end(cursor: &Cursor<'_>) -> bool
    ensures { result ≡ ends.may_end cursor.now }
{
    ends_items(cursor.next()) || (!cursor.is_on_line() && !goes_on_line(cursor.next()))
}

/// The end of a statement: `;`, or nothing where a statement may end without it (ECMA-262 §12.10).
///
/// # Errors
/// `NoTree` where it may not end.
#[tactic(auto, unfolding(actx_program::specs::StatementReader::end))]
pub fn end(cursor: &mut Cursor<'_>) -> Result<(), Cause>
    ensures { Reads (spec.end cursor.old) result cursor.new }
{
    if matches!(cursor.next(), Kind::Sign(Punct::Semicolon)) {
        cursor.skip();
        return Ok(());
    }
    if may_end(cursor) {
        Ok(())
    } else {
        Err(Cause::NoTree)
    }
}

/// The `;` behind a `do`, if it is there.
#[tactic(auto, unfolding(actx_program::specs::StatementReader::semicolon))]
pub fn semicolon(cursor: &mut Cursor<'_>)
    ensures { spec.semicolon cursor.old ≡ Ok (tt, cursor.new) }
{
    if matches!(cursor.next(), Kind::Sign(Punct::Semicolon)) {
        cursor.skip();
    }
}

/// `while`, behind the statement of a `do`.
///
/// # Errors
/// `NoTree` where another token comes.
#[tactic(auto, unfolding(actx_grammar::specs::Reader::expect))]
pub fn while_word(cursor: &mut Cursor<'_>) -> Result<(), Cause>
    ensures { Reads (reader.expect ends.is_while_word cursor.old) result cursor.new }
{
    if !matches!(cursor.next(), Kind::Word(Word::While)) {
        return Err(Cause::NoTree);
    }
    cursor.skip();
    Ok(())
}

/// Whether the name `of` comes.
#[tactic(auto, unfolding(actx_program::specs::Ends::is_of))]
pub fn is_of(cursor: &Cursor<'_>) -> bool
    ensures { result ≡ ends.is_of cursor.now }
{
    match cursor.as_slice() {
        [] => false,
        [token, ..] => match &token.kind {
            TokenKind::Name(units) => same_units(as_units(units), b"of"),
            _ => false,
        },
    }
}

/// Whether a function declaration begins here, or what looks like one.
#[tactic(auto, unfolding(actx_program::specs::Ends::begins_function))]
pub fn begins_function(cursor: &Cursor<'_>) -> bool
    ensures { result ≡ ends.begins_function cursor.now }
{
    matches!(cursor.next(), Kind::Word(Word::Function)) || cursor.is_async_function()
}

/// Whether no expression statement begins here (ECMA-262 §14.5, its lookahead).
#[tactic(auto, unfolding(actx_program::specs::Ends::begins_other))]
pub fn begins_other(cursor: &Cursor<'_>) -> bool
    ensures { result ≡ ends.begins_other cursor.now }
{
    matches!(cursor.next(), Kind::Sign(Punct::OpenBrace))
        || (matches!(cursor.next(), Kind::Word(Word::Class)) || begins_function(cursor))
}

/// Whether the function has a name.
pub fn has_function_name(function: &Function) -> bool
    ensures { result ≡ ends.has_function_name function.now }
{
    function.name.is_some()
}

/// Whether the class has a name.
pub fn has_class_name(class: &Class) -> bool
    ensures { result ≡ ends.has_class_name class.now }
{
    class.name.is_some()
}

/// Whether the target is a name, and no pattern.
pub fn is_name_target(target: &Target) -> bool
    ensures { result ≡ ends.is_name_target target.now }
{
    matches!(target, Target::Name(_))
}
