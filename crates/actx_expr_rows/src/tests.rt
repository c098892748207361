//! Reads the tables.

use crate::parts::Part;
use crate::rows::{ASSIGNS, EXPRESSIONS, LEFTS, PARAMS, TARGETS};
use crate::words;
use actx_expr::{assign, expression, left, params, target};
use actx_grammar::ParseError;
use actx_lex::{Token, tokens};
use actx_text::{Units, from_units};
use std::alloc::{AllocError, Global};
use std::process::Abort;
use std::test::Fail;

/// What is read, of the five calls.
#[derive(Clone, Copy)]
enum Call {
    Expression,
    Assign,
    Left,
    Target,
    Params,
}

/// The units of a source of a table, in which `@` stands for a line end.
fn units(alloc: Global, source: &str) -> Result<Units, AllocError> {
    let mut units = Vec::new(alloc);
    for byte in source.as_bytes() {
        units.push(if *byte == b'@' { 10 } else { *byte as u16 })?;
    }
    Ok(from_units(units))
}

/// Adds the answer where there is no tree.
fn refusal(out: &mut String, error: ParseError) -> Result<(), AllocError> {
    match error {
        ParseError::NoTree { .. } => out.push_str("NoTree"),
        ParseError::TooNested { .. } => out.push_str("TooNested"),
        ParseError::Memory => Err(AllocError),
    }
}

/// Adds how many tokens are left, if any are.
fn left_over(out: &mut String, found: &[Token], place: usize) -> Result<(), AllocError> {
    let more = found.len().saturating_sub(place);
    if more != 0 {
        write!(out, " .. {}", more)?;
    }
    Ok(())
}

/// Adds the shape of what a call answers.
fn show(alloc: Global, out: &mut String, call: Call, found: &[Token]) -> Result<(), AllocError> {
    let answer = match call {
        Call::Expression => expression(alloc, found, 0, 0),
        Call::Assign => assign(alloc, found, 0, 0),
        _ => left(alloc, found, 0, 0),
    };
    match answer {
        Ok((tree, place)) => {
            words::show(alloc, out, Part::Expr(&tree))?;
            left_over(out, found, place)
        }
        Err(error) => refusal(out, error),
    }
}

/// Adds the shape of a target or of parameters.
fn show_bound(
    alloc: Global,
    out: &mut String,
    call: Call,
    found: &[Token],
) -> Result<(), AllocError> {
    if let Call::Target = call {
        match target(alloc, found, 0, 0) {
            Ok((tree, place)) => {
                words::show(alloc, out, Part::Target(&tree))?;
                left_over(out, found, place)
            }
            Err(error) => refusal(out, error),
        }
    } else {
        match params(alloc, found, 0, 0) {
            Ok((tree, place)) => {
                words::show(alloc, out, Part::Params(&tree))?;
                left_over(out, found, place)
            }
            Err(error) => refusal(out, error),
        }
    }
}

/// The shape of what a call answers for a source.
fn shown(alloc: Global, call: Call, source: &str) -> Result<String, AllocError> {
    let text = units(alloc, source)?;
    let mut out = String::new(alloc);
    match tokens(alloc, &text) {
        Ok(found) => match call {
            Call::Target | Call::Params => show_bound(alloc, &mut out, call, found.as_slice())?,
            _ => show(alloc, &mut out, call, found.as_slice())?,
        },
        Err(_) => out.push_str("no tokens")?,
    }
    Ok(out)
}

/// Checks each line of the table, and answers how many there are.
fn check_rows(rt: &impl Abort, alloc: Global, call: Call, table: &str) -> Result<u32, AllocError> {
    let mut rows = 0u32;
    for line in table.lines() {
        if let Some((source, want)) = line.split_once(" ⇒ ") {
            let found = shown(alloc, call, source)?;
            assert_eq!(rt; found.as_str(), want, "of {source}");
            rows = rows.wrapping_add(1);
        }
    }
    Ok(rows)
}

#[test]
fn expressions(rt: HostRuntime) -> Result<(), Fail> {
    let alloc = rt.alloc();
    assert_eq!(rt; check_rows(&rt, alloc, Call::Expression, EXPRESSIONS)?, 184);
    Ok(())
}

#[test]
fn other_lines(rt: HostRuntime) -> Result<(), Fail> {
    let alloc = rt.alloc();
    assert_eq!(rt; check_rows(&rt, alloc, Call::Assign, ASSIGNS)?, 5);
    assert_eq!(rt; check_rows(&rt, alloc, Call::Left, LEFTS)?, 7);
    assert_eq!(rt; check_rows(&rt, alloc, Call::Target, TARGETS)?, 19);
    assert_eq!(rt; check_rows(&rt, alloc, Call::Params, PARAMS)?, 10);
    Ok(())
}

/// So many times `!`, and then `true`.
fn negations(alloc: Global, count: usize) -> Result<Units, AllocError> {
    let mut units = Vec::new(alloc);
    for _turn in 0..count {
        units.push(33)?;
    }
    for byte in b"true" {
        units.push(*byte as u16)?;
    }
    Ok(from_units(units))
}

#[test]
fn depth(rt: HostRuntime) -> Result<(), Fail> {
    let alloc = rt.alloc();
    for (count, fits) in [(199, true), (200, true), (201, false), (1000, false)] {
        let text = negations(alloc, count)?;
        let found = tokens(alloc, &text).ok().ok_or("no tokens")?;
        match expression(alloc, found.as_slice(), 0, 0) {
            Ok((_, place)) => {
                assert!(rt; fits, "at {count}");
                assert_eq!(rt; place, count.wrapping_add(1));
            }
            Err(error) => {
                assert!(rt; !fits, "at {count}");
                assert!(rt; matches!(error, ParseError::TooNested { .. }), "at {count}");
            }
        }
    }
    Ok(())
}
