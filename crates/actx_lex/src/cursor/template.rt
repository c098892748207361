//! Pieces of templates (ECMA-262 §12.9.6).

ghost use Rattle.std.specs.Prelude.{◌≡◌, None, IfOk, OnOk};
ghost use Rattle.actx_lex.specs.Parts.{Parts};
ghost use Rattle.actx_lex.specs.Templates.{TemplatePart, TemplatePiece};
ghost use Rattle.actx_lex.specs.Readers as readers;
ghost use Rattle.actx_lex.specs.Scans.{Scans};

use crate::cursor::Cursor;
use crate::element::{Element, add};
use actx_text::{Units, from_units};
use std::alloc::{AllocError, Global};

impl<'a> Cursor<'a> {
    /// The next part of a template.
    #[tactic(auto, unfolding(crate::specs::Readers::template_part))]
    fn template_part(&self) -> Option<(Element, Cursor<'a>)>
        ensures { result ≡ readers.template_part self.now }
    {
        match self.left {
            [] => None,
            [unit, rest @ ..] => {
                let after = Cursor { left: rest };
                if *unit == 92 {
                    after.escape()
                } else if *unit == 13 {
                    Some((Element::One(10), after.past_line_end(*unit)))
                } else if *unit == 96 || (*unit == 36 && after.begins(123)) {
                    None
                } else {
                    Some((Element::One(*unit), after))
                }
            }
        }
    }

    /// Goes past all parts of a piece, and answers their units.
    fn template_parts(&mut self, alloc: Global) -> Result<Vec<u16>, AllocError>
        ensures spelled { IfOk result (λ units. Parts TemplatePart units.items self.old self.new) }
        ensures whole { OnOk result (readers.template_part self.new ≡ None) }
    {
        let mut units = Vec::new(alloc);
        while let Some((element, after)) = self.template_part() {
            add(&mut units, element)?;
            *self = after;
        }
        Ok(units)
    }

    /// Whether the template ends here, or else an expression begins, and the place after that.
    #[tactic(auto, unfolding(crate::specs::Readers::end_at))]
    fn piece_end(&self) -> Option<(bool, Cursor<'a>)>
        ensures { result ≡ readers.end_at self.now }
    {
        match self.left {
            [] => None,
            [unit, rest @ ..] => {
                let after = Cursor { left: rest };
                if *unit == 96 {
                    Some((true, after))
                } else if *unit == 36 && after.begins(123) {
                    Some((false, after.rest()))
                } else {
                    None
                }
            }
        }
    }

    /// Reads the piece of a template whose backquote or brace stands before, and answers whether the template ends with it.
    pub fn piece(&mut self, alloc: Global) -> Result<Option<(Units, bool)>, AllocError>
        ensures { Scans TemplatePiece self.old result self.new }
    {
        let mut left = self.again();
        let units = left.template_parts(alloc)?;
        match left.piece_end() {
            None => Ok(None),
            Some((closes, after)) => {
                *self = after;
                Ok(Some((from_units(units), closes)))
            }
        }
    }
}
