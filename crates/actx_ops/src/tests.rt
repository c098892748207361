//! Tables of cases, taken from the definitions of ECMA-262.

mod cases;

use super::*;
use actx_text::{Units, from_utf8, same};
use actx_value::{Key, ObjId, Reason, TextId, Texts, Value};
use cases::{CONVERSIONS, OPERATORS};
use std::alloc::Global;
use std::test::Fail;

const SIGNS: [(&str, Op); 15] = [
    ("neg", Op::Negate),
    ("plus", Op::ToNumber),
    ("+", Op::Add),
    ("-", Op::Subtract),
    ("*", Op::Multiply),
    ("/", Op::Divide),
    ("%", Op::Remainder),
    ("<", Op::Less),
    (">", Op::Greater),
    ("<=", Op::LessOrEqual),
    (">=", Op::GreaterOrEqual),
    ("==", Op::Equal),
    ("!=", Op::NotEqual),
    ("===", Op::StrictlyEqual),
    ("!==", Op::StrictlyNotEqual),
];

const WORDS: [(&str, Value); 6] = [
    ("undefined", Value::Undefined),
    ("null", Value::Null),
    ("true", Value::Bool(true)),
    ("false", Value::Bool(false)),
    ("#1", Value::Object(ObjId(1))),
    ("#2", Value::Object(ObjId(2))),
];

fn operator(sign: &str) -> Option<Op> {
    for (name, op) in &SIGNS {
        if *name == sign {
            return Some(*op);
        }
    }
    None
}

/// The text between two `'`.
fn spelled(alloc: Global, word: &str) -> Result<Units, Fail> {
    let text = word.trim_matches('\'');
    Ok(from_utf8(alloc, text.as_bytes())?)
}

/// The value that a word of a table spells.
fn operand(alloc: Global, word: &str, texts: &mut Texts) -> Result<Value, Fail> {
    for (name, value) in &WORDS {
        if *name == word {
            return Ok(*value);
        }
    }
    if word.starts_with('\'') {
        return Ok(Value::Text(texts.add(spelled(alloc, word)?)?));
    }
    Ok(Value::Num(word.parse::<i64>()?))
}

/// Whether this is what was wanted.
fn is_wanted(alloc: Global, out: &OpOut, wanted: &str) -> Result<bool, Fail> {
    Ok(match out {
        OpOut::Value(Value::Num(n)) => wanted.parse::<i64>() == Ok(*n),
        OpOut::Value(Value::Bool(b)) => wanted == if *b { "true" } else { "false" },
        OpOut::Value(Value::Text(_)) => wanted == "same",
        OpOut::NewText(text) => wanted.starts_with('\'') && same(text, &spelled(alloc, wanted)?),
        OpOut::OutOfProfile(Reason::Number) => wanted == "!number",
        OpOut::OutOfProfile(Reason::Conversion) => wanted == "!conversion",
        _ => false,
    })
}

#[test]
fn operators(rt: HostRuntime) -> Result<(), Fail> {
    let alloc = rt.alloc();
    let mut texts = Texts::new(alloc, 10_000);
    let mut count = 0u64;
    for line in OPERATORS.lines() {
        let mut words = line.split_whitespace();
        let op = words.next().and_then(operator).ok_or("an operator")?;
        let a = operand(alloc, words.next().ok_or("a")?, &mut texts)?;
        let b = operand(alloc, words.next().ok_or("b")?, &mut texts)?;
        let wanted = words.next().ok_or("an answer")?;
        let given = apply(alloc, op, a, b, &texts)?;
        assert!(rt; is_wanted(alloc, &given, wanted)?, "of {line}: {given:?}");
        count = count.saturating_add(1);
    }
    assert_eq!(rt; count, 176);
    Ok(())
}

#[test]
fn conversions(rt: HostRuntime) -> Result<(), Fail> {
    let alloc = rt.alloc();
    let mut texts = Texts::new(alloc, 10_000);
    for line in CONVERSIONS.lines() {
        let mut words = line.split_whitespace();
        let call = words.next().ok_or("a call")?;
        let value = operand(alloc, words.next().ok_or("a value")?, &mut texts)?;
        let wanted = words.next().ok_or("an answer")?;
        let good = match call {
            "text" => is_wanted(alloc, &to_text(alloc, value, &texts)?, wanted)?,
            "key" => is_wanted(alloc, &to_key(alloc, value, &texts)?, wanted)?,
            _ => match key_of(value, &texts) {
                Key::Index(i) => wanted.parse::<u32>() == Ok(i),
                Key::Name(TextId(0)) => wanted == "empty",
                Key::Name(name) => wanted == "same" && value == Value::Text(name),
            },
        };
        assert!(rt; good, "of {line}");
    }
    Ok(())
}

#[test]
fn unknown_text_numbers(rt: HostRuntime) -> Result<(), Fail> {
    let alloc = rt.alloc();
    let texts = Texts::new(alloc, 10);
    let unknown = Value::Text(TextId(7));
    let empty = Value::Text(TextId(0));
    let equal = apply(alloc, Op::StrictlyEqual, unknown, empty, &texts)?;
    assert!(rt; matches!(equal, OpOut::Value(Value::Bool(true))));
    let text = to_text(alloc, unknown, &texts)?;
    assert!(rt; matches!(text, OpOut::Value(Value::Text(TextId(0)))));
    assert!(rt; key_of(unknown, &texts) == Key::Name(TextId(0)));
    Ok(())
}
