//! Texts between quotes (ECMA-262 §12.9.4).

ghost use Rattle.std.specs.Prelude.{◌≡◌, None, IfOk, OnOk};
ghost use Rattle.actx_lex.specs.Parts.{Parts};
ghost use Rattle.actx_lex.specs.Texts.{TextPart, QuotedText};
ghost use Rattle.actx_lex.specs.Readers as readers;
ghost use Rattle.actx_lex.specs.Scans.{Scans};

use crate::cursor::Cursor;
use crate::element::{Element, add};
use actx_text::{Units, from_units};
use std::alloc::{AllocError, Global};

impl<'a> Cursor<'a> {
    /// The next part between these quotes.
    #[tactic(auto, unfolding(crate::specs::Readers::text_part))]
    fn text_part(&self, quote: u16) -> Option<(Element, Cursor<'a>)>
        ensures { result ≡ readers.text_part quote self.now }
    {
        match self.left {
            [] => None,
            [unit, rest @ ..] => {
                let after = Cursor { left: rest };
                if *unit == 92 {
                    after.escape()
                } else if *unit == quote || *unit == 10 || *unit == 13 {
                    None
                } else {
                    Some((Element::One(*unit), after))
                }
            }
        }
    }

    /// Goes past all parts between these quotes, and answers their units.
    fn text_parts(&mut self, alloc: Global, quote: u16) -> Result<Vec<u16>, AllocError>
        ensures spelled { IfOk result (λ units. Parts (TextPart quote) units.items self.old self.new) }
        ensures whole { OnOk result (readers.text_part quote self.new ≡ None) }
    {
        let mut units = Vec::new(alloc);
        while let Some((element, after)) = self.text_part(quote) {
            add(&mut units, element)?;
            *self = after;
        }
        Ok(units)
    }

    /// The next unit, where it is a quote, and the place after it.
    #[tactic(auto, unfolding(crate::specs::Readers::quote_at))]
    fn quote(&self) -> Option<(u16, Cursor<'a>)>
        ensures { result ≡ readers.quote_at self.now }
    {
        match self.left {
            [] => None,
            [unit, rest @ ..] => {
                if *unit == 34 || *unit == 39 {
                    Some((*unit, Cursor { left: rest }))
                } else {
                    None
                }
            }
        }
    }

    /// Reads the text between quotes that stands here.
    pub fn quoted(&mut self, alloc: Global) -> Result<Option<Units>, AllocError>
        ensures { Scans QuotedText self.old result self.new }
    {
        let Some((quote, mut left)) = self.quote() else {
            return Ok(None);
        };
        let units = left.text_parts(alloc, quote)?;
        if left.begins(quote) {
            *self = left.rest();
            Ok(Some(from_units(units)))
        } else {
            Ok(None)
        }
    }
}
