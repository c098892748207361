//! Requests that apply operators and conversions.

ghost use Rattle.std.specs.Prelude.{◌≡◌, IfOk};
ghost use Rattle.actx_request.specs.Limits.{MeetsTexts};
ghost use Rattle.actx_request.specs.Outcomes.{gives_text};
ghost use Rattle.actx_request.specs.Operators.{as_given, operator_on, unary_on, binary_on, text_of, key_of};

use crate::given::{Given, go};
use actx_ops::{OpOut, apply, to_key, to_text};
use actx_text::{Units, len};
use actx_value::{BinaryOp, Op, StoreError, TextId, Texts, UnaryOp, Value, Which};
use std::alloc::{AllocError, Global};

/// The body goes on with a new text. The empty text stands already.
pub(crate) fn new_text(text: Units, texts: &mut Texts) -> Result<Given, AllocError>
    ensures { IfOk result (λ g. MeetsTexts (gives_text text) texts.old g texts.new) }
{
    if len(&text) == 0 {
        return Ok(go(Value::Text(TextId(0))));
    }
    match texts.add(text) {
        Ok(id) => Ok(go(Value::Text(id))),
        Err(StoreError::Full) => Ok(Given::Limit(Which::Text)),
        Err(StoreError::Memory) => Err(AllocError),
    }
}

/// What an operator or a conversion gave.
fn as_given(out: OpOut, texts: &mut Texts) -> Result<Given, AllocError>
    ensures { IfOk result (λ g. MeetsTexts (as_given out) texts.old g texts.new) }
{
    match out {
        OpOut::Value(v) => Ok(go(v)),
        OpOut::NewText(text) => Ok(new_text(text, texts)?),
        OpOut::Throw(e) => Ok(Given::Throw(e)),
        OpOut::OutOfProfile(r) => Ok(Given::OutOfProfile(r)),
    }
}

/// An operator on values.
fn operator(
    alloc: Global,
    op: Option<Op>,
    a: Value,
    b: Value,
    texts: &mut Texts,
) -> Result<Given, AllocError>
    ensures { IfOk result (λ g. MeetsTexts (operator_on op a b) texts.old g texts.new) }
{
    match op {
        Some(op) => {
            let out = apply(alloc, op, a, b, texts)?;
            Ok(as_given(out, texts)?)
        }
        None => Ok(go(Value::Undefined)),
    }
}

/// An operator before a value (ECMA-262 §13.5).
pub(crate) fn unary(
    alloc: Global,
    op: UnaryOp,
    v: Value,
    texts: &mut Texts,
) -> Result<Given, AllocError>
    ensures { IfOk result (λ g. MeetsTexts (unary_on op v) texts.old g texts.new) }
{
    Ok(operator(alloc, op.op(), v, v, texts)?)
}

/// An operator between two values (ECMA-262 §13.15.3).
pub(crate) fn binary(
    alloc: Global,
    op: BinaryOp,
    a: Value,
    b: Value,
    texts: &mut Texts,
) -> Result<Given, AllocError>
    ensures { IfOk result (λ g. MeetsTexts (binary_on op a b) texts.old g texts.new) }
{
    Ok(operator(alloc, op.op(), a, b, texts)?)
}

/// A value as a text (ToString, ECMA-262 §7.1.17).
pub(crate) fn text(alloc: Global, v: Value, texts: &mut Texts) -> Result<Given, AllocError>
    ensures { IfOk result (λ g. MeetsTexts (text_of v) texts.old g texts.new) }
{
    let out = to_text(alloc, v, texts)?;
    Ok(as_given(out, texts)?)
}

/// A value as a property key (ToPropertyKey, ECMA-262 §7.1.19).
pub(crate) fn key(alloc: Global, v: Value, texts: &mut Texts) -> Result<Given, AllocError>
    ensures { IfOk result (λ g. MeetsTexts (key_of v) texts.old g texts.new) }
{
    let out = to_key(alloc, v, texts)?;
    Ok(as_given(out, texts)?)
}
