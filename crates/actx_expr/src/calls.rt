//! The public calls.

ghost use Rattle.std.specs.Prelude.{◌≡◌, ◌-◌, ◌≤◌, length, drop};
ghost use Rattle.actx_expr.specs.Calls.{UpTo, Spelled, Given, HasNoTree, IsTooNested};
ghost use Rattle.actx_grammar.specs.Given as given;
ghost use Rattle.actx_grammar.specs.Given.{Answers, FailsBy, ended};
ghost use Rattle.actx_grammar.specs.Grammar.{SpExpr, SpAssign, SpLeft, SpTarget, SpParams};
ghost use Rattle.actx_grammar.specs.Lines as spec;
ghost use Rattle.actx_grammar.specs.Patterns as patterns;
ghost use Rattle.actx_grammar.specs.Tokens.{ends_expression, ends_assign, ends_left};

use crate::knot::{below, target_below};
use crate::readers::read_params;
use actx_cursor::Cursor;
use actx_grammar::{Cause, End, Line, ParseError};
use actx_lex::Token;
use actx_tree::{Expr, Params, Target};
use std::alloc::Global;

/// How many levels of nodes a tree has at most: no node has more than 200 nodes around it.
pub const MAX_LEVELS: usize = 201;

/// Whether a closer comes next.
fn closes(end: End, cursor: &Cursor<'_>) -> bool
    ensures { result ≡ given.closes end cursor.now }
{
    match end {
        End::Expression => cursor.ends_expression(),
        End::Assign => cursor.ends_assign(),
        End::Left => cursor.ends_left(),
    }
}

/// How many levels of nodes what lies inside of `depth` nodes may have.
fn levels_in(depth: u32) -> usize
    requires { depth ≤ 200 }
    ensures { result ≡ 201 - depth }
{
    MAX_LEVELS - depth as usize
}

/// How many units of the text stand before the place where reading stopped: before the next token, or
/// where none is left before the end of the last one.
fn stopped_at(tokens: &[Token], cursor: &Cursor<'_>) -> usize {
    match cursor.as_slice() {
        [next, ..] => next.from,
        [] => match tokens.last() {
            Some(last) => last.to,
            None => 0,
        },
    }
}

/// The error of a cause.
fn failure(cause: Cause, at: usize) -> ParseError
    ensures { FailsBy cause result }
{
    match cause {
        Cause::NoTree => ParseError::NoTree { at },
        Cause::TooNested => ParseError::TooNested { at },
        Cause::Memory => ParseError::Memory,
    }
}

/// Reads a line up to a closer, inside of `depth` nodes, and answers its tree and the place behind it.
fn line_up_to(
    alloc: Global,
    tokens: &[Token],
    from: usize,
    depth: u32,
    line: Line,
    end: End,
) -> Result<(Expr, usize), ParseError>
    requires within { from ≤ length tokens.now }
    requires nested { depth ≤ 200 }
    ensures { Answers (ended (given.closes end) ((spec.below (201 - depth)).read line (drop from tokens.now))) tokens.now result }
{
    let mut cursor = Cursor::new(tokens, from);
    match below(alloc, &mut cursor, levels_in(depth), line) {
        Ok((tree, _)) => {
            if closes(end, &cursor) {
                Ok((tree, tokens.len().saturating_sub(cursor.len())))
            } else {
                let at = stopped_at(tokens, &cursor);
                Err(ParseError::NoTree { at })
            }
        }
        Err(cause) => Err(failure(cause, stopped_at(tokens, &cursor))),
    }
}

/// Reads an Expr (§13.16) from a place on, up to a token that ends each Expr, inside of `depth` nodes.
///
/// Answers it, and the place behind it as a number of tokens.
///
/// # Errors
/// `NoTree` only where none is spelled there, of any depth, `TooNested` only where none is without a
/// node that has more than 200 nodes around it; one of the two wherever nothing is given. Each has
/// the units of the text before the place where reading stopped. `Memory` where memory runs out.
pub fn expression(
    alloc: Global,
    tokens: &[Token],
    from: usize,
    depth: u32,
) -> Result<(Expr, usize), ParseError>
    requires within { from ≤ length tokens.now }
    requires nested { depth ≤ 200 }
    // What is given is spelled, with no node too deep.
    ensures spelled { Spelled (UpTo ends_expression SpExpr) tokens.now from depth result }
    // What is spelled, with no node too deep, is given, unless memory runs out.
    ensures given { Given (UpTo ends_expression SpExpr) tokens.now from depth result }
    // No tree, of any depth.
    ensures no_tree { HasNoTree (UpTo ends_expression SpExpr) tokens.now from result }
    // No tree without a deeper node.
    ensures too_nested { IsTooNested (UpTo ends_expression SpExpr) tokens.now from depth result }
{
    line_up_to(alloc, tokens, from, depth, Line::Expr, End::Expression)
}

/// Reads an Assign (§13.15) from a place on, up to a token that ends each Assign, inside of `depth` nodes.
///
/// Answers it, and the place behind it as a number of tokens.
///
/// # Errors
/// `NoTree` only where none is spelled there, of any depth, `TooNested` only where none is without a
/// node that has more than 200 nodes around it; one of the two wherever nothing is given. Each has
/// the units of the text before the place where reading stopped. `Memory` where memory runs out.
pub fn assign(
    alloc: Global,
    tokens: &[Token],
    from: usize,
    depth: u32,
) -> Result<(Expr, usize), ParseError>
    requires within { from ≤ length tokens.now }
    requires nested { depth ≤ 200 }
    // What is given is spelled, with no node too deep.
    ensures spelled { Spelled (UpTo ends_assign SpAssign) tokens.now from depth result }
    // What is spelled, with no node too deep, is given, unless memory runs out.
    ensures given { Given (UpTo ends_assign SpAssign) tokens.now from depth result }
    // No tree, of any depth.
    ensures no_tree { HasNoTree (UpTo ends_assign SpAssign) tokens.now from result }
    // No tree without a deeper node.
    ensures too_nested { IsTooNested (UpTo ends_assign SpAssign) tokens.now from depth result }
{
    line_up_to(alloc, tokens, from, depth, Line::Assign, End::Assign)
}

/// Reads a Left (§13.3) from a place on, up to `{`, inside of `depth` nodes.
///
/// Answers it, and the place behind it as a number of tokens.
///
/// # Errors
/// `NoTree` only where none is spelled there, of any depth, `TooNested` only where none is without a
/// node that has more than 200 nodes around it; one of the two wherever nothing is given. Each has
/// the units of the text before the place where reading stopped. `Memory` where memory runs out.
pub fn left(
    alloc: Global,
    tokens: &[Token],
    from: usize,
    depth: u32,
) -> Result<(Expr, usize), ParseError>
    requires within { from ≤ length tokens.now }
    requires nested { depth ≤ 200 }
    // What is given is spelled, with no node too deep.
    ensures spelled { Spelled (UpTo ends_left SpLeft) tokens.now from depth result }
    // What is spelled, with no node too deep, is given, unless memory runs out.
    ensures given { Given (UpTo ends_left SpLeft) tokens.now from depth result }
    // No tree, of any depth.
    ensures no_tree { HasNoTree (UpTo ends_left SpLeft) tokens.now from result }
    // No tree without a deeper node.
    ensures too_nested { IsTooNested (UpTo ends_left SpLeft) tokens.now from depth result }
{
    line_up_to(alloc, tokens, from, depth, Line::Left, End::Left)
}

/// Reads a Target inside of `depth` nodes, and answers it and the place behind it.
fn target_answer(
    alloc: Global,
    tokens: &[Token],
    from: usize,
    depth: u32,
) -> Result<(Target, usize), ParseError>
    requires within { from ≤ length tokens.now }
    requires nested { depth ≤ 200 }
    ensures { Answers ((spec.below (201 - depth)).target (drop from tokens.now)) tokens.now result }
{
    let mut cursor = Cursor::new(tokens, from);
    match target_below(alloc, &mut cursor, levels_in(depth)) {
        Ok((tree, _)) => Ok((tree, tokens.len().saturating_sub(cursor.len()))),
        Err(cause) => Err(failure(cause, stopped_at(tokens, &cursor))),
    }
}

/// Reads a Target (§14.3.3) from a place on, inside of `depth` nodes.
///
/// Answers it, and the place behind it as a number of tokens.
///
/// # Errors
/// `NoTree` only where none is spelled there, of any depth, `TooNested` only where none is without a
/// node that has more than 200 nodes around it; one of the two wherever nothing is given. Each has
/// the units of the text before the place where reading stopped. `Memory` where memory runs out.
pub fn target(
    alloc: Global,
    tokens: &[Token],
    from: usize,
    depth: u32,
) -> Result<(Target, usize), ParseError>
    requires within { from ≤ length tokens.now }
    requires nested { depth ≤ 200 }
    // What is given is spelled, with no node too deep.
    ensures spelled { Spelled SpTarget tokens.now from depth result }
    // What is spelled, with no node too deep, is given, unless memory runs out.
    ensures given { Given SpTarget tokens.now from depth result }
    // No tree, of any depth.
    ensures no_tree { HasNoTree SpTarget tokens.now from result }
    // No tree without a deeper node.
    ensures too_nested { IsTooNested SpTarget tokens.now from depth result }
{
    target_answer(alloc, tokens, from, depth)
}

/// Reads Params inside of `depth` nodes, and answers them and the place behind them.
fn params_answer(
    alloc: Global,
    tokens: &[Token],
    from: usize,
    depth: u32,
) -> Result<(Params, usize), ParseError>
    requires within { from ≤ length tokens.now }
    requires nested { depth ≤ 200 }
    ensures { Answers (patterns.params (spec.below (201 - depth)) (drop from tokens.now)) tokens.now result }
{
    let mut cursor = Cursor::new(tokens, from);
    match read_params(alloc, &mut cursor, levels_in(depth)) {
        Ok((tree, _)) => Ok((tree, tokens.len().saturating_sub(cursor.len()))),
        Err(cause) => Err(failure(cause, stopped_at(tokens, &cursor))),
    }
}

/// Reads Params (§15.1) from a place on, inside of `depth` nodes.
///
/// Answers it, and the place behind it as a number of tokens.
///
/// # Errors
/// `NoTree` only where none is spelled there, of any depth, `TooNested` only where none is without a
/// node that has more than 200 nodes around it; one of the two wherever nothing is given. Each has
/// the units of the text before the place where reading stopped. `Memory` where memory runs out.
pub fn params(
    alloc: Global,
    tokens: &[Token],
    from: usize,
    depth: u32,
) -> Result<(Params, usize), ParseError>
    requires within { from ≤ length tokens.now }
    requires nested { depth ≤ 200 }
    // What is given is spelled, with no node too deep.
    ensures spelled { Spelled SpParams tokens.now from depth result }
    // What is spelled, with no node too deep, is given, unless memory runs out.
    ensures given { Given SpParams tokens.now from depth result }
    // No tree, of any depth.
    ensures no_tree { HasNoTree SpParams tokens.now from result }
    // No tree without a deeper node.
    ensures too_nested { IsTooNested SpParams tokens.now from depth result }
{
    params_answer(alloc, tokens, from, depth)
}
