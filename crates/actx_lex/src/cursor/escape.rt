//! Escapes of texts and templates (ECMA-262 §12.9.4).

ghost use Rattle.std.specs.Prelude.{◌≡◌, ◌<◌, ◌≤◌, IfSome};
ghost use Rattle.actx_lex.specs.Escapes as escapes;
ghost use Rattle.actx_lex.specs.Readers as readers;

use crate::cursor::Cursor;
use crate::element::{Element, encoded};
use crate::unit::{hex_value, is_digit, is_hex_digit, is_line_end};

/// What `b`, `t`, `n`, `v`, `f` and `r` stand for after a backslash.
fn control_unit(unit: u16) -> Option<u16>
    ensures { result ≡ escapes.control_unit unit }
{
    match unit {
        98 => Some(8),
        116 => Some(9),
        110 => Some(10),
        118 => Some(11),
        102 => Some(12),
        114 => Some(13),
        _ => None,
    }
}

impl<'a> Cursor<'a> {
    /// The number of two hexadecimal digits, and the place after them.
    #[tactic(auto, unfolding(crate::specs::Readers::hex_pair))]
    fn hex_pair(&self) -> Option<(u16, Cursor<'a>)>
        ensures value { result ≡ readers.hex_pair self.now }
        ensures low { IfSome result (λ r. r.0 < 256) }
    {
        match self.left {
            [] => None,
            [high, after @ ..] => match after {
                [] => None,
                [low, rest @ ..] => {
                    if is_hex_digit(*high) && is_hex_digit(*low) {
                        Some((
                            hex_value(*high) * 16 + hex_value(*low),
                            Cursor { left: rest },
                        ))
                    } else {
                        None
                    }
                }
            },
        }
    }

    /// After `\x`.
    fn two_hex_digits(&self) -> Option<(Element, Cursor<'a>)>
        ensures { result ≡ readers.two_by (readers.hex_pair self.now) }
    {
        match self.hex_pair() {
            None => None,
            Some((value, after)) => Some((Element::One(value), after)),
        }
    }

    /// After `\u`, where no brace follows.
    fn four_hex_digits(&self) -> Option<(Element, Cursor<'a>)>
        ensures { result ≡ readers.four_by (readers.hex_pair self.now) }
    {
        match self.hex_pair() {
            None => None,
            Some((high, after)) => match after.hex_pair() {
                None => None,
                Some((low, rest)) => Some((Element::One(high * 256 + low), rest)),
            },
        }
    }

    /// The number of hexadecimal digits that goes on from the digit `first` up to `}`, and the place after that.
    #[tactic(auto, unfolding(crate::specs::Readers::hex_run))]
    fn hex_run(&self, first: u16) -> Option<(u32, Cursor<'a>)>
        requires { first < 16 }
        ensures value { result ≡ readers.hex_run first self.now }
        ensures low { IfSome result (λ r. r.0 ≤ 0x10FFFF) }
    {
        let mut value = first as u32;
        let mut left = self.left;
        while let [unit, rest @ ..] = left {
            if *unit == 125 {
                return Some((value, Cursor { left: rest }));
            }
            if !is_hex_digit(*unit) {
                return None;
            }
            let next = value * 16 + hex_value(*unit) as u32;
            if 0x10FFFF < next {
                return None;
            }
            value = next;
            left = rest;
        }
        None
    }

    /// After `\u{`.
    fn braced(&self) -> Option<(Element, Cursor<'a>)>
        ensures { result ≡ readers.braced self.now }
    {
        match self.left {
            [] => None,
            [unit, rest @ ..] => {
                if is_hex_digit(*unit) {
                    let after = Cursor { left: rest };
                    match after.hex_run(hex_value(*unit)) {
                        None => None,
                        Some((value, rest)) => Some((encoded(value), rest)),
                    }
                } else {
                    None
                }
            }
        }
    }

    /// After `\u`.
    #[tactic(auto, unfolding(crate::specs::Readers::unicode))]
    fn unicode(&self) -> Option<(Element, Cursor<'a>)>
        ensures { result ≡ readers.unicode self.now }
    {
        match self.left {
            [] => None,
            [unit, rest @ ..] => {
                if *unit == 123 {
                    let after = Cursor { left: rest };
                    after.braced()
                } else {
                    self.four_hex_digits()
                }
            }
        }
    }

    /// After a backslash and `unit`, which is none that stands for a control unit.
    fn other_escape(self, unit: u16) -> Option<(Element, Cursor<'a>)>
        ensures { result ≡ readers.other_escape unit self.entry }
    {
        if unit == 120 {
            self.two_hex_digits()
        } else if unit == 117 {
            self.unicode()
        } else if is_digit(unit) {
            if unit == 48 && !self.begins_digit() {
                Some((Element::One(0), self))
            } else {
                None
            }
        } else if is_line_end(unit) {
            Some((Element::Empty, self.past_line_end(unit)))
        } else {
            Some((Element::One(unit), self))
        }
    }

    /// After a backslash: what the escape stands for, and the place after it.
    #[tactic(auto, unfolding(crate::specs::Readers::escape_at))]
    pub fn escape(&self) -> Option<(Element, Cursor<'a>)>
        ensures { result ≡ readers.escape_at self.now }
    {
        match self.left {
            [] => None,
            [unit, rest @ ..] => {
                let after = Cursor { left: rest };
                match control_unit(*unit) {
                    Some(control) => Some((Element::One(control), after)),
                    None => after.other_escape(*unit),
                }
            }
        }
    }
}
