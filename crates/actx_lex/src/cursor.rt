//! A cursor in a text.

ghost use Rattle.std.specs.Prelude.{◌≡◌, ◌≤◌, ◌-◌, length, take, IfOk};
ghost use Rattle.actx_lex.specs.Units as units;
ghost use Rattle.actx_lex.specs.Readers as readers;

mod escape;
mod gap;
mod number;
mod sign;
mod template;
mod text;
mod word;

use crate::element::Class;
use crate::unit::{is_digit, is_sign_unit};
use std::alloc::{AllocError, Global};
use std::marker::Model;

/// A place in a text. Contracts see it as the units from there on.
#[derive(Drop)]
pub struct Cursor<'a> {
    left: &'a [u16],
}

impl<'a> Model for Cursor<'a> {
    ghost use Rattle.std.specs.Prelude.{List, ℕ};

    ghost Value = { List ℕ };

    ghost view = { λ cursor. cursor.left.now };
}

impl<'a> Cursor<'a> {
    pub fn new(left: &'a [u16]) -> Cursor<'a>
        ensures { result ≡ left.now }
    {
        Cursor { left }
    }

    /// The same place.
    pub fn again(&self) -> Cursor<'a>
        ensures { result ≡ self.now }
    {
        Cursor { left: self.left }
    }

    /// How many units are left.
    pub fn len(&self) -> usize
        ensures { result ≡ length self.now }
    {
        self.left.len()
    }

    /// Whether the unit comes next.
    pub fn begins(&self, unit: u16) -> bool
        ensures { result ≡ units.begins unit self.now }
    {
        match self.left {
            [] => false,
            [first, ..] => *first == unit,
        }
    }

    /// Whether a digit comes next.
    pub fn begins_digit(&self) -> bool
        ensures { result ≡ units.begins_digit self.now }
    {
        match self.left {
            [] => false,
            [first, ..] => is_digit(*first),
        }
    }

    /// The place after the next unit.
    pub fn rest(&self) -> Cursor<'a>
        ensures { result ≡ units.rest self.now }
    {
        match self.left {
            [] => Cursor { left: self.left },
            [_, rest @ ..] => Cursor { left: rest },
        }
    }

    /// The place after the line end that began with `unit`.
    fn past_line_end(self, unit: u16) -> Cursor<'a>
        ensures { result ≡ units.past_line_end unit self.entry }
    {
        if unit == 13 && self.begins(10) {
            self.rest()
        } else {
            self
        }
    }

    /// The units up to the end.
    fn until(&self, alloc: Global, end: &Cursor<'a>) -> Result<Vec<u16>, AllocError>
        requires { length end.now ≤ length self.now }
        ensures { IfOk result (λ units. units.items ≡ take (length self.now - length end.now) self.now) }
    {
        let count = self.left.len() - end.left.len();
        Vec::from_slice(alloc, &self.left[..count])
    }

    /// Which tokens the text may begin with here, where the innermost open brace is `${` or not.
    #[tactic(auto, unfolding(crate::specs::Readers::class))]
    pub fn class(&self, in_template: bool) -> Class
        ensures { result ≡ readers.class in_template self.now }
    {
        match self.left {
            [] => Class::Word,
            [unit, ..] => {
                if is_digit(*unit) {
                    Class::Number
                } else if *unit == 34 || *unit == 39 {
                    Class::Text
                } else if *unit == 96 {
                    Class::FirstPiece
                } else if *unit == 125 && in_template {
                    Class::LaterPiece
                } else if is_sign_unit(*unit) {
                    Class::Sign
                } else {
                    Class::Word
                }
            }
        }
    }
}
