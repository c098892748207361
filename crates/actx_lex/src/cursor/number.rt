//! Numbers (ECMA-262 §12.9.3).

ghost use Rattle.std.specs.Prelude.{◌≡◌, ℕ, ◌<◌, ◌≤◌, None, IfSome, MatchOption};
ghost use Rattle.actx_lex.specs.Units.{Text};
ghost use Rattle.actx_lex.specs.Numbers as numbers;
ghost use Rattle.actx_lex.specs.Numbers.{Number, max_safe_integer};
ghost use Rattle.actx_lex.specs.Readers as readers;
ghost use Rattle.actx_lex.specs.Readers.{Digits};
ghost use Rattle.actx_lex.specs.Scans.{Finds};

use crate::cursor::Cursor;
use crate::unit::is_digit;

const MAX_SAFE_INTEGER: u64 = 9007199254740991;

impl<'a> Cursor<'a> {
    /// Whether a number may end here.
    fn ends_number(&self) -> bool
        ensures { result ≡ numbers.ends_number self.now }
    {
        !self.begins(46) && !self.begins_digit() && self.after_character(false).is_none()
    }

    /// The next digit, and the place after it.
    #[tactic(auto, unfolding(crate::specs::Readers::digit_at))]
    fn digit(&self) -> Option<(u16, Cursor<'a>)>
        ensures value { result ≡ readers.digit_at self.now }
        ensures low { IfSome result (λ r. r.0 < 10) }
    {
        match self.left {
            [] => None,
            [unit, rest @ ..] => {
                if is_digit(*unit) {
                    Some((*unit - 48, Cursor { left: rest }))
                } else {
                    None
                }
            }
        }
    }

    /// The number that goes on from the digit `first`, and the place after it, where it isn't too large.
    fn digits(&self, first: u16) -> Option<(u64, Cursor<'a>)>
        requires { first < 10 }
        ensures { MatchOption result ((n : ℕ) × (end : Text) × Digits first n self.now end × (max_safe_integer < n))
            (λ r. Digits first r.0 self.now r.1 × (readers.digit_at r.1 ≡ None) × (r.0 ≤ max_safe_integer)) }
    {
        let mut value = first as u64;
        let mut left = self.again();
        while let Some((digit, after)) = left.digit() {
            value = value * 10 + digit as u64;
            left = after;
            if value > MAX_SAFE_INTEGER {
                return None;
            }
        }
        Some((value, left))
    }

    /// Reads the number that stands here.
    pub fn number(&mut self) -> Option<u64>
        ensures number { Finds Number self.old result self.new }
        ensures small { IfSome result (λ n. n ≤ max_safe_integer) }
    {
        let Some((first, left)) = self.digit() else {
            return None;
        };
        if first == 0 {
            if left.ends_number() {
                *self = left;
                return Some(0);
            }
            return None;
        }
        let Some((value, end)) = left.digits(first) else {
            return None;
        };
        if end.ends_number() {
            *self = end;
            Some(value)
        } else {
            None
        }
    }
}
