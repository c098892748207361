//! Patterns, parameters and functions in small texts, where no node fits into a node: what lies in
//! them is a name.

ghost use Rattle.std.specs.Prelude.{◌≡◌, IfOk};
ghost use Rattle.actx_grammar.specs.Lines.{below};
ghost use Rattle.actx_grammar.specs.Reads.{Reads};

use crate::{class, function, params, pattern, read_name_target};
use actx_cursor::{Cursor, Inner};
use actx_grammar::{Cause, Line};
use actx_lex::{Token, tokens};
use actx_text::from_utf8;
use actx_tree::{Expr, Target};
use std::alloc::Global;
use std::test::Fail;

/// No line of the grammar with a node fits.
#[tactic(auto, unfolding(actx_grammar::specs::Lines::below))]
fn no_line(
    _alloc: Global,
    _cursor: &mut Cursor<'_>,
    _room: usize,
    line: Line,
) -> Result<(Expr, usize), Cause>
    ensures reads { Reads ((below 0).read line _cursor.old) result _cursor.new }
    ensures low { IfOk result (λ x. x.1 ≡ 0) }
{
    Err(Cause::TooNested)
}

/// A target that is a name.
#[tactic(auto, unfolding(actx_grammar::specs::Lines::below))]
fn name_target(
    alloc: Global,
    cursor: &mut Cursor<'_>,
    _room: usize,
) -> Result<(Target, usize), Cause>
    ensures reads { Reads ((below 0).target cursor.old) result cursor.new }
    ensures low { IfOk result (λ x. x.1 ≡ 0) }
{
    read_name_target(alloc, cursor)
}

fn tokens_of(alloc: Global, text: &str) -> Result<Vec<Token>, Fail> {
    let units = from_utf8(alloc, text.as_bytes())?;
    Ok(tokens(alloc, &units)?)
}

#[test]
fn reads_parameters(rt: HostRuntime) -> Result<(), Fail> {
    let inner = Inner {
        alloc: rt.alloc(),
        room: 0,
        read: no_line,
        target: name_target,
    };
    let text = tokens_of(rt.alloc(), "(a, b, ...c) => d")?;
    let mut cursor = Cursor::new(text.as_slice(), 0);
    let (found, levels) = params(&inner, &mut cursor)?;
    assert_eq!(rt; found.elems.len(), 2);
    assert!(rt; found.rest.is_some());
    assert_eq!(rt; levels, 0);
    assert_eq!(rt; cursor.len(), 2);
    Ok(())
}

#[test]
fn reads_patterns_and_functions(rt: HostRuntime) -> Result<(), Fail> {
    let inner = Inner {
        alloc: rt.alloc(),
        room: 0,
        read: no_line,
        target: name_target,
    };
    let text = tokens_of(
        rt.alloc(),
        "{a, b: c, ...d} async function f(x) { } class A { ; }",
    )?;
    let mut cursor = Cursor::new(text.as_slice(), 0);
    let (found, levels) = pattern(&inner, &mut cursor)?;
    assert!(rt; matches!(&found, Target::Object(props, Some(_)) if props.len() == 2));
    assert_eq!(rt; levels, 1);
    let (found, levels) = function(&inner, &mut cursor)?;
    assert!(rt; found.name.is_some());
    assert_eq!(rt; levels, 1);
    let (found, levels) = class(&inner, &mut cursor)?;
    assert!(rt; found.members.is_empty());
    assert_eq!(rt; levels, 1);
    assert_eq!(rt; cursor.len(), 0);
    Ok(())
}

#[test]
fn refuses_what_is_no_pattern(rt: HostRuntime) -> Result<(), Fail> {
    let inner = Inner {
        alloc: rt.alloc(),
        room: 0,
        read: no_line,
        target: name_target,
    };
    for source in ["{}", "[]", "{a b}", "[...a, b]", "{1}"] {
        let text = tokens_of(rt.alloc(), source)?;
        let mut cursor = Cursor::new(text.as_slice(), 0);
        assert!(rt;
            matches!(pattern(&inner, &mut cursor), Err(Cause::NoTree)),
            "{source}"
        );
    }
    Ok(())
}
