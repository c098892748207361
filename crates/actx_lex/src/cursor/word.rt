//! Words (ECMA-262 §12.7).

ghost use Rattle.std.specs.Prelude.{◌≡◌};
ghost use Rattle.actx_lex.specs.Units as units;
ghost use Rattle.actx_lex.specs.Readers as readers;
ghost use Rattle.actx_lex.specs.Words.{Word};
ghost use Rattle.actx_lex.specs.Scans.{Scans};

use crate::cursor::Cursor;
use crate::unit::{fits, is_high_surrogate, is_low_surrogate};
use actx_text::{Units, from_units};
use std::alloc::{AllocError, Global};

impl<'a> Cursor<'a> {
    /// The next character, and the place after it.
    #[tactic(auto, unfolding(crate::specs::Units::first_character))]
    fn first_character(&self) -> Option<(u32, Cursor<'a>)>
        ensures { result ≡ units.first_character self.now }
    {
        match self.left {
            [] => None,
            [high, after @ ..] => match after {
                [] => Some((*high as u32, Cursor { left: after })),
                [low, rest @ ..] => {
                    if is_high_surrogate(*high) && is_low_surrogate(*low) {
                        let code = 0x10000
                            + (*high as u32 - 0xD800) * 0x400
                            + (*low as u32 - 0xDC00);
                        Some((code, Cursor { left: rest }))
                    } else {
                        Some((*high as u32, Cursor { left: after }))
                    }
                }
            },
        }
    }

    /// The place after the next character, where that may begin a word or else go on with one.
    #[tactic(auto, unfolding(crate::specs::Readers::after_character))]
    pub fn after_character(&self, start: bool) -> Option<Cursor<'a>>
        ensures { result ≡ readers.after_character start self.now }
    {
        match self.first_character() {
            None => None,
            Some((code, after)) => { if fits(start, code) { Some(after) } else { None } }
        }
    }

    /// Reads the longest word that stands here.
    pub fn word(&mut self, alloc: Global) -> Result<Option<Units>, AllocError>
        ensures { Scans Word self.old result self.new }
    {
        let Some(mut end) = self.after_character(true) else {
            return Ok(None);
        };
        while let Some(after) = end.after_character(false) {
            end = after;
        }
        let units = self.until(alloc, &end)?;
        *self = end;
        Ok(Some(from_units(units)))
    }
}
