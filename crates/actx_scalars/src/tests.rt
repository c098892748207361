//! Tables of cases, taken from the text of ECMA-262.

mod cases;

use super::*;
use actx_ops::OpOut;
use actx_text::{Units, as_units, from_units, same};
use actx_value::{ErrorKind, ObjId, Reason, TextId, Texts, Value};
use cases::{CONVERSIONS, NUMBERS, PADDING, PIECES, SEARCHES, SPLITS};
use std::alloc::Global;
use std::test::Fail;

const MOST: usize = 1000;

const NATIVES: [(&str, Scalar); 20] = [
    ("String", Scalar::OfValue(ValueFunction::String)),
    ("Number", Scalar::OfValue(ValueFunction::Number)),
    ("Boolean", Scalar::OfValue(ValueFunction::Boolean)),
    ("isInteger", Scalar::OfValue(ValueFunction::IsInteger)),
    (
        "isSafeInteger",
        Scalar::OfValue(ValueFunction::IsSafeInteger),
    ),
    ("slice", Scalar::OfText(TextMethod::Slice)),
    ("indexOf", Scalar::OfText(TextMethod::IndexOf)),
    ("includes", Scalar::OfText(TextMethod::Includes)),
    ("startsWith", Scalar::OfText(TextMethod::StartsWith)),
    ("endsWith", Scalar::OfText(TextMethod::EndsWith)),
    ("repeat", Scalar::OfText(TextMethod::Repeat)),
    ("padStart", Scalar::OfText(TextMethod::PadStart)),
    ("padEnd", Scalar::OfText(TextMethod::PadEnd)),
    ("charCodeAt", Scalar::OfText(TextMethod::CharCodeAt)),
    ("abs", Scalar::OfNumbers(MathFunction::Abs)),
    ("max", Scalar::OfNumbers(MathFunction::Max)),
    ("min", Scalar::OfNumbers(MathFunction::Min)),
    ("floor", Scalar::OfNumbers(MathFunction::Floor)),
    ("trunc", Scalar::OfNumbers(MathFunction::Trunc)),
    ("sign", Scalar::OfNumbers(MathFunction::Sign)),
];

const WORDS: [(&str, Value); 6] = [
    ("-", Value::Undefined),
    ("undefined", Value::Undefined),
    ("null", Value::Null),
    ("true", Value::Bool(true)),
    ("false", Value::Bool(false)),
    ("#1", Value::Object(ObjId(1))),
];

fn native(name: &str) -> Option<Scalar> {
    for (word, n) in &NATIVES {
        if *word == name {
            return Some(*n);
        }
    }
    None
}

/// The text between two `'`, where `\uHHHH` is one unit.
fn spelled(alloc: Global, word: &str) -> Result<Units, Fail> {
    let mut units = Vec::new(alloc);
    for (i, piece) in word.trim_matches('\'').split('\\').enumerate() {
        let mut rest = piece;
        if 0 < i {
            let digits = piece.get(1..5).ok_or("four digits")?;
            units.push(u16::from_str_radix(digits, 16)?)?;
            rest = piece.get(5..).ok_or("a rest")?;
        }
        for letter in rest.bytes() {
            units.push(u16::from(letter))?;
        }
    }
    Ok(from_units(units))
}

/// The value that a word of a table spells.
fn operand(alloc: Global, word: &str, texts: &mut Texts) -> Result<Value, Fail> {
    for (name, value) in &WORDS {
        if *name == word {
            return Ok(*value);
        }
    }
    if word.starts_with('\'') {
        return Ok(Value::Text(texts.add(spelled(alloc, word)?)?));
    }
    Ok(Value::Num(word.parse::<i64>()?))
}

/// The values of these words.
fn operands(alloc: Global, words: &str, texts: &mut Texts) -> Result<Vec<Value>, Fail> {
    let mut values = Vec::new(alloc);
    for word in words.split_whitespace() {
        values.push(operand(alloc, word, texts)?)?;
    }
    Ok(values)
}

/// Whether this is the value that was wanted.
fn is_value(v: Value, wanted: &str) -> bool {
    match v {
        Value::Num(n) => wanted.parse::<i64>() == Ok(n),
        Value::Bool(true) => wanted == "true",
        Value::Bool(false) => wanted == "false",
        Value::Text(_) => wanted == "same",
        _ => false,
    }
}

/// Whether this is the text that was wanted.
fn is_text(alloc: Global, text: &Units, wanted: &str) -> Result<bool, Fail> {
    if wanted == "!full" {
        return Ok(as_units(text).len() == MOST);
    }
    Ok(wanted.starts_with('\'') && same(text, &spelled(alloc, wanted)?))
}

/// The word for an error.
fn error_word(e: ErrorKind) -> &'static str {
    match e {
        ErrorKind::TypeError(8) => "!type",
        ErrorKind::RangeError(0) => "!range",
        _ => "another error",
    }
}

/// The word for a reason.
fn reason_word(r: Reason) -> &'static str {
    match r {
        Reason::Number => "!number",
        Reason::Conversion => "!conversion",
        _ => "another reason",
    }
}

/// Whether this is what was wanted.
fn is_wanted(alloc: Global, out: &Bounded, wanted: &str) -> Result<bool, Fail> {
    match out {
        Bounded::TooLong => Ok(wanted == "!long"),
        Bounded::Out(OpOut::Value(v)) => Ok(is_value(*v, wanted)),
        Bounded::Out(OpOut::NewText(text)) => is_text(alloc, text, wanted),
        Bounded::Out(OpOut::Throw(e)) => Ok(wanted == error_word(*e)),
        Bounded::Out(OpOut::OutOfProfile(r)) => Ok(wanted == reason_word(*r)),
    }
}

/// The name of the first line of the table that gives something else, and how many lines there are.
fn first_wrong(alloc: Global, table: &str) -> Result<(Option<usize>, usize), Fail> {
    let mut texts = Texts::new(alloc, 100_000);
    let mut count = 0usize;
    for line in table.lines() {
        count = count.saturating_add(1);
        let (call, wanted) = line.split_once('=').ok_or("an equals sign")?;
        let (this, rest) = call.split_once(' ').ok_or("a receiver")?;
        let (name, args) = rest.split_once(' ').ok_or("a name")?;
        let this = operand(alloc, this, &mut texts)?;
        let args = operands(alloc, args, &mut texts)?;
        let n = native(name).ok_or("a native")?;
        let out = scalar(alloc, n, this, args.as_slice(), &texts, MOST)?;
        if !is_wanted(alloc, &out, wanted.trim())? {
            return Ok((Some(count), count));
        }
    }
    Ok((None, count))
}

#[test]
fn conversions(rt: HostRuntime) -> Result<(), Fail> {
    assert_eq!(rt; first_wrong(rt.alloc(), CONVERSIONS)?, (None, 37));
    Ok(())
}

#[test]
fn searches(rt: HostRuntime) -> Result<(), Fail> {
    assert_eq!(rt; first_wrong(rt.alloc(), SEARCHES)?, (None, 69));
    Ok(())
}

#[test]
fn pieces(rt: HostRuntime) -> Result<(), Fail> {
    assert_eq!(rt; first_wrong(rt.alloc(), PIECES)?, (None, 54));
    Ok(())
}

#[test]
fn padding(rt: HostRuntime) -> Result<(), Fail> {
    assert_eq!(rt; first_wrong(rt.alloc(), PADDING)?, (None, 37));
    Ok(())
}

#[test]
fn numbers(rt: HostRuntime) -> Result<(), Fail> {
    assert_eq!(rt; first_wrong(rt.alloc(), NUMBERS)?, (None, 39));
    Ok(())
}

/// Whether these are the pieces that were wanted.
fn are_pieces(alloc: Global, pieces: &[Units], wanted: &str) -> Result<bool, Fail> {
    let mut words = wanted.split_whitespace();
    for piece in pieces {
        let word = words.next().ok_or("a piece too many")?;
        if !same(piece, &spelled(alloc, word)?) {
            return Ok(false);
        }
    }
    Ok(words.next().is_none())
}

/// Whether `split` gave these elements, or this word.
fn is_split(alloc: Global, out: &SplitOut, wanted: &str) -> Result<bool, Fail> {
    match out {
        SplitOut::Whole(v) => Ok(matches!(v, Value::Text(_)) && wanted == "whole"),
        SplitOut::Pieces(pieces) => are_pieces(alloc, pieces.as_slice(), wanted),
        SplitOut::Throw(e) => Ok(wanted == error_word(*e)),
        SplitOut::OutOfProfile(r) => Ok(wanted == reason_word(*r)),
    }
}

#[test]
fn splits(rt: HostRuntime) -> Result<(), Fail> {
    let alloc = rt.alloc();
    let mut texts = Texts::new(alloc, 100_000);
    for line in SPLITS.lines() {
        let (call, wanted) = line.split_once('=').ok_or("an equals sign")?;
        let (this, rest) = call.split_once(' ').ok_or("a receiver")?;
        let (_name, args) = rest.split_once(' ').ok_or("a name")?;
        let this = operand(alloc, this, &mut texts)?;
        let args = operands(alloc, args, &mut texts)?;
        let out = split(alloc, this, args.as_slice(), &texts)?;
        assert!(rt; is_split(alloc, &out, wanted.trim())?, "of {line}");
    }
    Ok(())
}

#[test]
fn unknown_text_numbers(rt: HostRuntime) -> Result<(), Fail> {
    let alloc = rt.alloc();
    let texts = Texts::new(alloc, 10);
    let unknown = Value::Text(TextId(7));
    let pad = Scalar::OfText(TextMethod::PadEnd);
    let out = scalar(alloc, pad, unknown, &[], &texts, 0)?;
    assert!(rt; matches!(out, Bounded::Out(OpOut::Value(Value::Text(TextId(0))))));
    let at = Scalar::OfText(TextMethod::IndexOf);
    let out = scalar(alloc, at, unknown, &[unknown], &texts, 0)?;
    assert!(rt; matches!(out, Bounded::Out(OpOut::Value(Value::Num(0)))));
    match split(alloc, unknown, &[Value::Num(1)], &texts)? {
        SplitOut::Pieces(pieces) => assert_eq!(rt; pieces.into_vec().len(), 1),
        other => assert!(rt; false, "{other:?}"),
    }
    Ok(())
}
