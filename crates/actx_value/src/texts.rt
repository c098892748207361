//! The texts of a run.

ghost use Rattle.std.specs.Prelude.{if◌then◌else◌, suc, position, vec_len, ◌++◌, ◌≡◌, ◌↔◌, ◌<◌, ◌+◌, ◌∷◌, [], length, slice_get, IfOk, OnOk, OnErr, IsErrOf, Some};
ghost use Rattle.std.specs.Option.{option_copied, option_map};
ghost use Rattle.std.specs.Vec.{vec_capacity};
ghost use Rattle.actx_value.specs.Texts.{texts_eq, units_of, with_text, added_number, number_of, least_number, HasOneEmptyText};

use crate::ids::TextId;
use crate::store_error::StoreError;
use crate::word::Word;
use actx_text::{Units, from_units, len};
use indexmap::IndexSet;
use std::alloc::Global;
use std::marker::Model;

/// The texts of a run, by number, and the most units that they may have in all. Contracts see the
/// list of texts, from number 0 on, and that limit. Equal texts may have several numbers; each
/// distinct text is kept once.
#[derive(Drop)]
pub struct Texts {
    empty: Units,
    // each distinct text but the empty one
    distinct: IndexSet<Word>,
    // of each number from 1 on, the place of its text in `distinct`
    places: Vec<u32>,
    // of each text in `distinct`, its least number
    firsts: Vec<u32>,
    total: u64,
    limit: u64,
}

impl Model for Texts {
    ghost use Rattle.std.specs.Prelude.{◌∷◌};
    ghost use Rattle.actx_value.specs.Texts.{TextStore};
    ghost use Rattle.actx_value.specs.TextIndex.{texts_in, IsIndexed};

    ghost Value = { TextStore };

    ghost view = { λ t. record { texts = t.empty ∷ texts_in t.distinct.keys t.places.items; limit = t.limit } };

    ghost invariant = { λ t. IsIndexed t.empty t.distinct.keys t.places.items t.firsts.items t.total t.limit };
}

impl Texts {
    /// The empty text alone, where at most `limit` units are added.
    pub fn new(alloc: Global, limit: u64) -> Texts
        requires { limit < 2147483648 }
        ensures { result ≡ record { texts = [] ∷ []; limit = limit } }
    {
        Texts {
            empty: from_units(Vec::new(alloc)),
            distinct: IndexSet::new(alloc),
            places: Vec::new(alloc),
            firsts: Vec::new(alloc),
            total: 0,
            limit,
        }
    }

    /// Number 0 is the empty text, and no other number is. The call does nothing: its contract is the
    /// law.
    pub fn one_empty_text(&self)
        ensures { HasOneEmptyText self.now.texts }
    {
        let _ = &self.empty;
    }

    /// How many units the texts have in all. Equal texts count each time that they were added.
    pub fn total(&self) -> u64
        ensures { result ≡ units_of self.now.texts }
    {
        self.total
    }

    /// The text of a number, and `None` exactly where there is no such number.
    pub fn get(&self, t: TextId) -> Option<&Units>
        ensures { option_copied result ≡ slice_get self.now.texts t.0 }
    {
        if t.0 == 0 {
            return Some(&self.empty);
        }
        let place = *self.places.get(t.0 as usize - 1)?;
        let words = self.distinct.as_slice();
        Some(words[place as usize].text())
    }

    /// The least number that has the same text as this one. A number that isn't there counts as 0.
    /// It takes the same time for every text.
    pub fn least(&self, t: TextId) -> TextId
        ensures { result.0 ≡ least_number self.now.texts t.0 }
    {
        let _distinct = self.distinct.len();
        if t.0 == 0 {
            return TextId(0);
        }
        match self.places.get(t.0 as usize - 1) {
            Some(place) => TextId(self.firsts[*place as usize]),
            None => TextId(0),
        }
    }

    /// The least number of this text, and `None` exactly where no number has it. It looks at each
    /// distinct text.
    pub fn number(&self, text: &[u16]) -> Option<TextId>
        ensures { option_map (λ id. id.0) result ≡ number_of self.now.texts text.now }
    {
        let words = self.distinct.as_slice();
        if text.is_empty() {
            return Some(TextId(0));
        }
        match place_of(words, text) {
            Some(place) => Some(TextId(self.firsts[place])),
            None => None,
        }
    }

    /// Adds a text and gives its number: 0 for the empty text, which stands already, and the next
    /// number for any other, also where an equal text stands. It takes amortised constant time for
    /// each unit.
    ///
    /// # Errors
    /// `Full` exactly where the units would be more than the limit. `Memory` where there is no room.
    /// The texts stay as they were.
    pub fn add(&mut self, t: Units) -> Result<TextId, StoreError>
        ensures number { IfOk result (λ id. id.0 ≡ added_number self.old.texts t) }
        ensures ok { OnOk result (self.new ≡ record { texts = with_text self.old.texts t; limit = self.old.limit }) }
        ensures full { IsErrOf result StoreError.Full ↔ (self.old.limit < units_of self.old.texts + length t) }
        ensures err { OnErr result (self.new ≡ self.old) }
    {
        let units = len(&t);
        let room = self.limit - self.total;
        if units == 0 {
            return Ok(TextId(0));
        }
        if units as u64 > room {
            return Err(StoreError::Full);
        }
        self.places.reserve(1)?;
        self.firsts.reserve(1)?;
        let (place, added) = self.distinct.insert_full(Word::new(t))?;
        let number = note_number(&mut self.places, &mut self.firsts, place as u32, added);
        self.total += units as u64;
        Ok(TextId(number))
    }
}

/// Notes the place of a text under the next number, which is its least one where the text is new.
fn note_number(places: &mut Vec<u32>, firsts: &mut Vec<u32>, place: u32, new: bool) -> u32
    requires few { vec_len places.old < 2147483648 }
    requires room { vec_len places.old < vec_capacity places.old }
    requires room_for_new { vec_len firsts.old < vec_capacity firsts.old }
    ensures number { result ≡ suc (length places.old.items) }
    ensures places { places.new.items ≡ places.old.items ++ place ∷ [] }
    ensures firsts { firsts.new.items ≡ (if new then firsts.old.items ++ suc (length places.old.items) ∷ [] else firsts.old.items) }
{
    places.push_reserved(place);
    let number = places.len() as u32;
    if new {
        firsts.push_reserved(number);
    }
    number
}

/// The place of a text among these.
fn place_of(words: &[Word], text: &[u16]) -> Option<usize>
    ensures { result ≡ position (texts_eq text.now) words.now }
{
    words.iter().position(|word| word.is(text))
}
