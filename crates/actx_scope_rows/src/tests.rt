//! Reads the table.

use crate::rows::ROWS;
use actx_lex::tokens;
use actx_parse::program;
use actx_scope::{EarlyKind, ScopeError, check};
use actx_text::from_utf8;
use std::alloc::{AllocError, Global};
use std::process::Abort;
use std::test::Fail;

/// The word of a kind.
fn word(kind: EarlyKind) -> &'static str {
    match kind {
        EarlyKind::Redeclared => "Redeclared",
        EarlyKind::NotDeclared => "NotDeclared",
        EarlyKind::ConstAssigned => "ConstAssigned",
        EarlyKind::BadBreak => "BadBreak",
        EarlyKind::BadReturn => "BadReturn",
        EarlyKind::BadAwait => "BadAwait",
        EarlyKind::BadYield => "BadYield",
        EarlyKind::BadSuper => "BadSuper",
        EarlyKind::BadDelete => "BadDelete",
        EarlyKind::BadKey => "BadKey",
        EarlyKind::TwoConstructors => "TwoConstructors",
    }
}

/// The early error of a file, in words.
fn shown(alloc: Global, source: &str) -> Result<String, AllocError> {
    let mut out = String::new(alloc);
    let Ok(text) = from_utf8(alloc, source.as_bytes()) else {
        return Err(AllocError);
    };
    let Ok(found) = tokens(alloc, &text) else {
        out.push_str("no tokens")?;
        return Ok(out);
    };
    let Ok(tree) = program(alloc, &found) else {
        out.push_str("no tree")?;
        return Ok(out);
    };
    match check(alloc, &tree) {
        Ok(_) => out.push_str("none")?,
        Err(ScopeError::Early { kind, at }) => write!(out, "{} {}", word(kind), at)?,
        Err(ScopeError::Memory) => return Err(AllocError),
    }
    Ok(out)
}

#[test]
fn early_errors_of_files(rt: HostRuntime) -> Result<(), Fail> {
    let mut rows = 0u32;
    for line in ROWS.lines() {
        if let Some((source, want)) = line.split_once(" ⇒ ") {
            let found = shown(rt.alloc(), source)?;
            assert_eq!(rt; found.as_str(), want, "of {source}");
            rows = rows.wrapping_add(1);
        }
    }
    assert_eq!(rt; rows, 71);
    Ok(())
}
