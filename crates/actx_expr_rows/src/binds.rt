//! Keys, functions, classes and what they bind, as short texts.

use crate::parts::{Part, put};
use crate::signs::flow_sign;
use actx_text::Units;
use actx_tree::{Class, Elem, Function, Key, Method, Params, Prop, Target};
use sqlite_items::Items;
use std::alloc::AllocError;

/// Adds a key.
pub fn key<'a>(parts: &mut Vec<Part<'a>>, w: &'a Key) -> Result<(), AllocError> {
    match w {
        Key::Word(text) => put(parts, Part::Name(text)),
        Key::Text(text) => put(parts, Part::Quoted(text)),
        Key::Number(value) => put(parts, Part::Number(*value)),
        Key::Computed(x) => {
            put(parts, Part::Word("["))?;
            put(parts, Part::Expr(x.get()))?;
            put(parts, Part::Word("]"))
        }
    }
}

/// Adds a function.
pub fn function<'a>(parts: &mut Vec<Part<'a>>, f: &'a Function) -> Result<(), AllocError> {
    put(parts, Part::Word("("))?;
    put(parts, Part::Word(flow_sign(f.flow)))?;
    put(parts, Part::Word("function "))?;
    if let Some(text) = &f.name {
        put(parts, Part::Name(text))?;
        put(parts, Part::Word(" "))?;
    }
    params(parts, &f.params)?;
    put(parts, Part::Body(f.body))?;
    put(parts, Part::Word(")"))
}

/// Adds a method.
pub fn method<'a>(parts: &mut Vec<Part<'a>>, m: &'a Method) -> Result<(), AllocError> {
    put(parts, Part::Word("("))?;
    put(parts, Part::Word(flow_sign(m.flow)))?;
    put(parts, Part::Word("method "))?;
    key(parts, &m.key)?;
    put(parts, Part::Word(" "))?;
    params(parts, &m.params)?;
    put(parts, Part::Body(m.body))?;
    put(parts, Part::Word(")"))
}

/// Adds a class.
pub fn class<'a>(parts: &mut Vec<Part<'a>>, c: &'a Class) -> Result<(), AllocError> {
    put(parts, Part::Word("(class"))?;
    if let Some(text) = &c.name {
        put(parts, Part::Word(" "))?;
        put(parts, Part::Name(text))?;
    }
    if let Some(parent) = &c.parent {
        put(parts, Part::Word(" from "))?;
        put(parts, Part::Expr(parent.get()))?;
    }
    for member in c.members.as_slice() {
        put(
            parts,
            Part::Word(if member.is_static { " static " } else { " " }),
        )?;
        method(parts, &member.method)?;
    }
    put(parts, Part::Word(")"))
}

/// Adds parameters.
pub fn params<'a>(parts: &mut Vec<Part<'a>>, ps: &'a Params) -> Result<(), AllocError> {
    put(parts, Part::Word("("))?;
    elems(parts, &ps.elems)?;
    if let Some(rest) = &ps.rest {
        put(parts, Part::Word(" ..."))?;
        put(parts, Part::Target(rest.get()))?;
    }
    put(parts, Part::Word(")"))
}

/// Adds targets with their defaults, a space between.
fn elems<'a>(parts: &mut Vec<Part<'a>>, xs: &'a Items<Elem>) -> Result<(), AllocError> {
    let mut is_first = true;
    for x in xs.as_slice() {
        if !is_first {
            put(parts, Part::Word(" "))?;
        }
        is_first = false;
        elem(parts, x)?;
    }
    Ok(())
}

/// Adds a target and its default.
fn elem<'a>(parts: &mut Vec<Part<'a>>, x: &'a Elem) -> Result<(), AllocError> {
    put(parts, Part::Target(&x.target))?;
    if let Some(value) = &x.default {
        put(parts, Part::Word("="))?;
        put(parts, Part::Expr(value.get()))?;
    }
    Ok(())
}

/// Adds a target.
pub fn target<'a>(parts: &mut Vec<Part<'a>>, x: &'a Target) -> Result<(), AllocError> {
    match x {
        Target::Name(text) => put(parts, Part::Name(text)),
        Target::Object(xs, rest) => {
            put(parts, Part::Word("{"))?;
            props(parts, xs)?;
            rest_name(parts, rest)?;
            put(parts, Part::Word("}"))
        }
        Target::Array(xs, rest) => {
            put(parts, Part::Word("["))?;
            elems(parts, xs)?;
            rest_name(parts, rest)?;
            put(parts, Part::Word("]"))
        }
    }
}

/// Adds properties of a pattern, each behind a space.
fn props<'a>(parts: &mut Vec<Part<'a>>, xs: &'a Items<Prop>) -> Result<(), AllocError> {
    for x in xs.as_slice() {
        put(parts, Part::Word(" "))?;
        prop(parts, x)?;
    }
    Ok(())
}

/// Adds a property of a pattern.
fn prop<'a>(parts: &mut Vec<Part<'a>>, x: &'a Prop) -> Result<(), AllocError> {
    match x {
        Prop::Shorthand(text, None) => put(parts, Part::Name(text)),
        Prop::Shorthand(text, Some(value)) => {
            put(parts, Part::Name(text))?;
            put(parts, Part::Word("="))?;
            put(parts, Part::Expr(value.get()))
        }
        Prop::Pair(w, bound) => {
            key(parts, w)?;
            put(parts, Part::Word(":"))?;
            elem(parts, bound)
        }
    }
}

/// Adds the name behind `...`, if there is one.
fn rest_name<'a>(parts: &mut Vec<Part<'a>>, rest: &'a Option<Units>) -> Result<(), AllocError> {
    match rest {
        Some(text) => {
            put(parts, Part::Word(" ..."))?;
            put(parts, Part::Name(text))
        }
        None => Ok(()),
    }
}
