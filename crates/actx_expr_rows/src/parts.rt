//! The parts of a short text.

use actx_text::Units;
use actx_tree::{Expr, Params, Target, Unread};
use std::alloc::AllocError;

/// A part of a text, or a tree that stands for its parts.
#[derive(Clone, Copy)]
pub enum Part<'a> {
    Word(&'static str),
    Name(&'a Units),
    Quoted(&'a Units),
    Number(i64),
    Body(Unread),
    Expr(&'a Expr),
    Target(&'a Target),
    Params(&'a Params),
}

/// Adds a part.
pub fn put<'a>(parts: &mut Vec<Part<'a>>, part: Part<'a>) -> Result<(), AllocError> {
    parts.push(part)?;
    Ok(())
}

/// Puts the parts before those that are left; the last of these comes next.
pub fn put_before<'a>(
    left: &mut Vec<Part<'a>>,
    mut parts: Vec<Part<'a>>,
) -> Result<(), AllocError> {
    for _turn in 0..parts.len() {
        if let Some(part) = parts.pop() {
            put(left, part)?;
        }
    }
    Ok(())
}
