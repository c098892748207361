//! The texts of the opening store.

ghost use Rattle.std.specs.Prelude.{◌≡◌, ◌<◌, ◌+◌, [], ◌∷◌, length, codes, IfOk, OnOk};
ghost use Rattle.std.specs.List.{fold};
ghost use Rattle.actx_value.specs.Texts.{added_number, units_of};
ghost use Rattle.actx_opening.specs.Words.{lines_from, words};
ghost use Rattle.actx_opening.specs.Texts.{added, with_literals, opening_texts};

use crate::store::MOST;
use crate::words::WORDS;
use actx_code::Code;
use actx_text::{Units, copy, from_units};
use actx_value::{TextId, Texts};
use std::alloc::{AllocError, Global};

const LINE_FEED: u8 = 0x0A;

/// Adds a text.
#[tactic(auto, unfolding(crate::specs::Texts::added))]
fn add(texts: &mut Texts, t: Units) -> Result<TextId, AllocError>
    ensures number { IfOk result (λ id. id.0 ≡ added_number texts.old.texts t) }
    ensures ok { OnOk result (texts.new ≡ record { texts = added texts.old.texts t; limit = texts.old.limit }) }
{
    match texts.add(t) {
        Ok(id) => Ok(id),
        Err(_) => Err(AllocError),
    }
}

/// The number after this one.
fn next(i: u32) -> Result<u32, AllocError>
    ensures { IfOk result (λ n. n ≡ i + 1) }
{
    match i.checked_add(1) {
        Some(n) => Ok(n),
        None => Err(AllocError),
    }
}

/// Adds the literal texts of the code, in their order.
fn add_literals(alloc: Global, texts: &mut Texts, code: &Code) -> Result<(), AllocError>
    ensures { OnOk result (texts.new ≡ record { texts = fold added texts.old.texts code.now.literals; limit = texts.old.limit }) }
{
    let mut i = 0u32;
    while let Some(text) = code.literal(i) {
        let _ = add(texts, copy(alloc, text)?)?;
        i = next(i)?;
    }
    Ok(())
}

/// Adds each line of a table.
fn add_lines(alloc: Global, texts: &mut Texts, table: &[u8]) -> Result<(), AllocError>
    ensures { OnOk result (texts.new ≡ record { texts = fold added texts.old.texts (lines_from [] table.now); limit = texts.old.limit }) }
{
    let mut word = Vec::new(alloc);
    for letter in table {
        if *letter == LINE_FEED {
            let _ = add(texts, from_units(word))?;
            word = Vec::new(alloc);
        } else {
            word.push(u16::from(*letter))?;
        }
    }
    Ok(())
}

/// The texts of an opening store, and the number of its first word, `length`.
#[derive(Drop)]
pub(crate) struct Worded {
    /// The texts, by number.
    pub(crate) texts: Texts,
    /// The number of `length`.
    pub(crate) first: u32,
}

/// Adds the first word, and gives its number.
fn add_first(alloc: Global, texts: &mut Texts) -> Result<u32, AllocError>
    ensures number { IfOk result (λ n. n ≡ length texts.old.texts) }
    ensures ok { OnOk result (texts.new ≡ record { texts = added texts.old.texts (codes "length"); limit = texts.old.limit }) }
{
    let units = Vec::from_slice(alloc, &[0x6Cu16, 0x65, 0x6E, 0x67, 0x74, 0x68])?;
    Ok(add(texts, from_units(units))?.0)
}

/// Adds the words, and gives the number of the first one.
fn add_words(alloc: Global, texts: &mut Texts) -> Result<u32, AllocError>
    ensures number { IfOk result (λ n. n ≡ length texts.old.texts) }
    ensures ok { OnOk result (texts.new ≡ record { texts = fold added texts.old.texts words; limit = texts.old.limit }) }
{
    let first = add_first(alloc, texts)?;
    add_lines(alloc, texts, &WORDS)?;
    Ok(first)
}

/// The texts of an opening store, with this limit of units.
pub(crate) fn opening_texts(alloc: Global, code: &Code, limit: u64) -> Result<Worded, AllocError>
    requires { limit < 2147483648 }
    ensures { IfOk result (λ w. (w.texts ≡ record { texts = opening_texts code.now.literals; limit = limit }) × (w.first ≡ length (with_literals code.now.literals))) }
{
    let mut texts = Texts::new(alloc, limit);
    add_literals(alloc, &mut texts, code)?;
    let first = add_words(alloc, &mut texts)?;
    Ok(Worded { texts, first })
}

/// How many units the texts of an opening store have.
pub(crate) fn opening_units(alloc: Global, code: &Code) -> Result<u64, AllocError>
    ensures { IfOk result (λ n. n ≡ units_of (opening_texts code.now.literals)) }
{
    let worded = opening_texts(alloc, code, MOST)?;
    Ok(worded.texts.total())
}
