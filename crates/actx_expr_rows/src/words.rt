//! Short texts.

use crate::binds::{params, target};
use crate::parts::{Part, put, put_before};
use crate::shapes::expr;
use actx_text::{Units, as_units};
use std::alloc::{AllocError, Global};

/// How many parts are shown at most.
const MOST_PARTS: usize = 100_000;

/// Adds units, those outside of ASCII as `?`.
fn name(out: &mut String, text: &Units) -> Result<(), AllocError> {
    for unit in as_units(text) {
        if 32 <= *unit && *unit < 127 {
            out.push(*unit as u8 as char)?;
        } else {
            out.push('?')?;
        }
    }
    Ok(())
}

/// Adds a part that stands for no others. Of a body it is how many tokens lie between its braces, the
/// closing one counted.
fn word(out: &mut String, part: Part<'_>) -> Result<(), AllocError> {
    match part {
        Part::Word(text) => out.push_str(text),
        Part::Name(text) => name(out, text),
        Part::Quoted(text) => {
            out.push('\'')?;
            name(out, text)?;
            out.push('\'')
        }
        Part::Number(value) => {
            write!(out, "{}", value)?;
            Ok(())
        }
        Part::Body(body) => {
            write!(out, " <{}>", body.from.saturating_sub(body.to))?;
            Ok(())
        }
        Part::Expr(_) | Part::Target(_) | Part::Params(_) => Ok(()),
    }
}

/// The parts that a part stands for, if it does.
fn inner_parts<'a>(alloc: Global, part: Part<'a>) -> Result<Vec<Part<'a>>, AllocError> {
    let mut parts = Vec::new(alloc);
    match part {
        Part::Expr(tree) => expr(&mut parts, tree)?,
        Part::Target(tree) => target(&mut parts, tree)?,
        Part::Params(tree) => params(&mut parts, tree)?,
        _ => {}
    }
    Ok(parts)
}

/// Adds the text of a part.
pub fn show(alloc: Global, out: &mut String, part: Part<'_>) -> Result<(), AllocError> {
    let mut left = Vec::new(alloc);
    put(&mut left, part)?;
    for _turn in 0..MOST_PARTS {
        let Some(next) = left.pop() else {
            return Ok(());
        };
        word(out, next)?;
        put_before(&mut left, inner_parts(alloc, next)?)?;
    }
    out.push_str("..")
}
