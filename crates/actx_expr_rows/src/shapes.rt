//! Trees as short texts: a node stands in brackets, behind its operator.

use crate::binds::{class, function, key, method, params};
use crate::parts::{Part, put};
use crate::signs::{assign_sign, binary_sign, step_sign, unary_sign};
use actx_tree::{Argument, Entry, Expr, Suffix};
use sqlite_items::Items;
use std::alloc::AllocError;

/// Adds the shape of an expression.
pub fn expr<'a>(parts: &mut Vec<Part<'a>>, tree: &'a Expr) -> Result<(), AllocError> {
    match tree {
        Expr::Name(text) => put(parts, Part::Name(text)),
        Expr::Number(value) => put(parts, Part::Number(*value)),
        Expr::Text(text) => put(parts, Part::Quoted(text)),
        Expr::Bool(value) => put(parts, Part::Word(if *value { "true" } else { "false" })),
        Expr::Null => put(parts, Part::Word("null")),
        Expr::This => put(parts, Part::Word("this")),
        Expr::SuperMember(text) => {
            put(parts, Part::Word("super."))?;
            put(parts, Part::Name(text))
        }
        Expr::Function(f) => function(parts, f),
        Expr::Class(c) => class(parts, c),
        _ => {
            put(parts, Part::Word("("))?;
            node(parts, tree)?;
            put(parts, Part::Word(")"))
        }
    }
}

/// Adds what stands in the brackets of a node.
fn node<'a>(parts: &mut Vec<Part<'a>>, tree: &'a Expr) -> Result<(), AllocError> {
    match tree {
        Expr::Template(text, pieces) => {
            put(parts, Part::Word("template "))?;
            put(parts, Part::Quoted(text))?;
            for piece in pieces.as_slice() {
                put(parts, Part::Word(" "))?;
                put(parts, Part::Expr(&piece.value))?;
                put(parts, Part::Word(" "))?;
                put(parts, Part::Quoted(&piece.after))?;
            }
            Ok(())
        }
        Expr::Brackets(x) => {
            put(parts, Part::Word("in "))?;
            put(parts, Part::Expr(x.get()))
        }
        Expr::Array(xs) => {
            put(parts, Part::Word("array"))?;
            arguments(parts, xs)
        }
        Expr::Object(xs) => {
            put(parts, Part::Word("object"))?;
            entries(parts, xs)
        }
        Expr::SuperCall(xs) => {
            put(parts, Part::Word("super"))?;
            arguments(parts, xs)
        }
        _ => operation(parts, tree),
    }
}

/// Adds what stands in the brackets of a node with operands.
fn operation<'a>(parts: &mut Vec<Part<'a>>, tree: &'a Expr) -> Result<(), AllocError> {
    match tree {
        Expr::StepBefore(op, x) => {
            put(parts, Part::Word(step_sign(*op)))?;
            put(parts, Part::Word("_ "))?;
            put(parts, Part::Expr(x.get()))
        }
        Expr::StepAfter(x, op) => {
            put(parts, Part::Word("_"))?;
            put(parts, Part::Word(step_sign(*op)))?;
            put(parts, Part::Word(" "))?;
            put(parts, Part::Expr(x.get()))
        }
        Expr::Unary(op, x) => {
            put(parts, Part::Word(unary_sign(*op)))?;
            put(parts, Part::Word(" "))?;
            put(parts, Part::Expr(x.get()))
        }
        Expr::Conditional(x, y, z) => {
            put(parts, Part::Word("? "))?;
            put(parts, Part::Expr(x.get()))?;
            put(parts, Part::Word(" "))?;
            put(parts, Part::Expr(y.get()))?;
            put(parts, Part::Word(" "))?;
            put(parts, Part::Expr(z.get()))
        }
        Expr::Assign(x, op, y) => {
            put(parts, Part::Word(assign_sign(*op)))?;
            put(parts, Part::Word(" "))?;
            put(parts, Part::Expr(x.get()))?;
            put(parts, Part::Word(" "))?;
            put(parts, Part::Expr(y.get()))
        }
        _ => longer(parts, tree),
    }
}

/// Adds what stands in the brackets of a node with a list.
fn longer<'a>(parts: &mut Vec<Part<'a>>, tree: &'a Expr) -> Result<(), AllocError> {
    match tree {
        Expr::New(x, xs, None) => {
            put(parts, Part::Word("new "))?;
            put(parts, Part::Expr(x.get()))?;
            suffixes(parts, xs)
        }
        Expr::New(x, xs, Some(zs)) => {
            put(parts, Part::Word("new "))?;
            put(parts, Part::Expr(x.get()))?;
            suffixes(parts, xs)?;
            put(parts, Part::Word(" with"))?;
            arguments(parts, zs)
        }
        Expr::Left(x, xs) => {
            put(parts, Part::Word("left "))?;
            put(parts, Part::Expr(x.get()))?;
            suffixes(parts, xs)
        }
        Expr::Chain(_, _) => chain(parts, tree),
        Expr::Comma(x, xs) => {
            put(parts, Part::Word(", "))?;
            put(parts, Part::Expr(x.get()))?;
            for y in xs.as_slice() {
                put(parts, Part::Word(" "))?;
                put(parts, Part::Expr(y))?;
            }
            Ok(())
        }
        _ => arrow(parts, tree),
    }
}

/// Adds what stands in the brackets of a chain: grouped to the left, as it is meant.
fn chain<'a>(parts: &mut Vec<Part<'a>>, tree: &'a Expr) -> Result<(), AllocError> {
    let Expr::Chain(x, operands) = tree else {
        return Ok(());
    };
    let mut is_outermost = true;
    for operand in operands.as_slice().iter().rev() {
        if !is_outermost {
            put(parts, Part::Word("("))?;
        }
        is_outermost = false;
        put(parts, Part::Word(binary_sign(operand.op)))?;
        put(parts, Part::Word(" "))?;
    }
    put(parts, Part::Expr(x.get()))?;
    let mut is_innermost = true;
    for operand in operands.as_slice() {
        if !is_innermost {
            put(parts, Part::Word(")"))?;
        }
        is_innermost = false;
        put(parts, Part::Word(" "))?;
        put(parts, Part::Expr(&operand.right))?;
    }
    Ok(())
}

/// Adds what stands in the brackets of an arrow function or a `yield`.
fn arrow<'a>(parts: &mut Vec<Part<'a>>, tree: &'a Expr) -> Result<(), AllocError> {
    match tree {
        Expr::Yield(None) => put(parts, Part::Word("yield")),
        Expr::Yield(Some(x)) => {
            put(parts, Part::Word("yield "))?;
            put(parts, Part::Expr(x.get()))
        }
        Expr::Arrow(is_async, ps, x) => {
            put(
                parts,
                Part::Word(if *is_async { "async=> " } else { "=> " }),
            )?;
            params(parts, ps)?;
            put(parts, Part::Word(" "))?;
            put(parts, Part::Expr(x.get()))
        }
        Expr::ArrowBlock(is_async, ps, body) => {
            put(
                parts,
                Part::Word(if *is_async { "async=> " } else { "=> " }),
            )?;
            params(parts, ps)?;
            put(parts, Part::Body(*body))
        }
        _ => Ok(()),
    }
}

/// Adds arguments, each behind a space.
fn arguments<'a>(parts: &mut Vec<Part<'a>>, xs: &'a Items<Argument>) -> Result<(), AllocError> {
    for x in xs.as_slice() {
        put(parts, Part::Word(" "))?;
        match x {
            Argument::One(value) => put(parts, Part::Expr(value))?,
            Argument::Spread(value) => {
                put(parts, Part::Word("..."))?;
                put(parts, Part::Expr(value))?;
            }
        }
    }
    Ok(())
}

/// Adds entries of an object, each behind a space.
fn entries<'a>(parts: &mut Vec<Part<'a>>, xs: &'a Items<Entry>) -> Result<(), AllocError> {
    for x in xs.as_slice() {
        put(parts, Part::Word(" "))?;
        match x {
            Entry::Spread(value) => {
                put(parts, Part::Word("..."))?;
                put(parts, Part::Expr(value))?;
            }
            Entry::Shorthand(text) => put(parts, Part::Name(text))?,
            Entry::Pair(w, value) => {
                key(parts, w)?;
                put(parts, Part::Word(":"))?;
                put(parts, Part::Expr(value))?;
            }
            Entry::Method(m) => method(parts, m)?,
        }
    }
    Ok(())
}

/// Adds suffixes, each behind a space.
fn suffixes<'a>(parts: &mut Vec<Part<'a>>, xs: &'a Items<Suffix>) -> Result<(), AllocError> {
    for x in xs.as_slice() {
        put(parts, Part::Word(" "))?;
        suffix(parts, x)?;
    }
    Ok(())
}

/// Adds a suffix, behind `?` where `?.` stands before it.
fn suffix<'a>(parts: &mut Vec<Part<'a>>, x: &'a Suffix) -> Result<(), AllocError> {
    match x {
        Suffix::Member(optional, text) => {
            put(parts, Part::Word(if *optional { "?." } else { "." }))?;
            put(parts, Part::Name(text))
        }
        Suffix::Index(optional, value) => {
            put(parts, Part::Word(if *optional { "?[" } else { "[" }))?;
            put(parts, Part::Expr(value))?;
            put(parts, Part::Word("]"))
        }
        Suffix::Call(optional, xs) => {
            put(
                parts,
                Part::Word(if *optional { "(?call" } else { "(call" }),
            )?;
            arguments(parts, xs)?;
            put(parts, Part::Word(")"))
        }
    }
}
