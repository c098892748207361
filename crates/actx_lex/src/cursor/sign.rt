//! Signs (ECMA-262 §12.8).

ghost use Rattle.std.specs.Prelude.{◌≡◌};
ghost use Rattle.actx_lex.specs.Signs as signs;
ghost use Rattle.actx_lex.specs.Signs.{Sign};
ghost use Rattle.actx_lex.specs.Readers as readers;
ghost use Rattle.actx_lex.specs.Scans.{Finds};

use crate::cursor::Cursor;
use crate::token::Punct;

/// The units of a sign.
fn spelling(sign: Punct) -> &'static [u16]
    ensures { result.now ≡ signs.spelling sign }
{
    match sign {
        Punct::OpenBrace => &[123],
        Punct::CloseBrace => &[125],
        Punct::OpenParenthesis => &[40],
        Punct::CloseParenthesis => &[41],
        Punct::OpenBracket => &[91],
        Punct::CloseBracket => &[93],
        Punct::Dot => &[46],
        Punct::Ellipsis => &[46, 46, 46],
        Punct::Semicolon => &[59],
        Punct::Comma => &[44],
        Punct::Less => &[60],
        Punct::Greater => &[62],
        Punct::LessOrEqual => &[60, 61],
        Punct::GreaterOrEqual => &[62, 61],
        Punct::Equal => &[61, 61],
        Punct::NotEqual => &[33, 61],
        Punct::StrictEqual => &[61, 61, 61],
        Punct::StrictNotEqual => &[33, 61, 61],
        Punct::Plus => &[43],
        Punct::Minus => &[45],
        Punct::Star => &[42],
        Punct::Slash => &[47],
        Punct::Percent => &[37],
        Punct::PlusPlus => &[43, 43],
        Punct::MinusMinus => &[45, 45],
        Punct::Not => &[33],
        Punct::And => &[38, 38],
        Punct::Or => &[124, 124],
        Punct::Coalesce => &[63, 63],
        Punct::Question => &[63],
        Punct::OptionalDot => &[63, 46],
        Punct::Colon => &[58],
        Punct::Assign => &[61],
        Punct::PlusAssign => &[43, 61],
        Punct::MinusAssign => &[45, 61],
        Punct::StarAssign => &[42, 61],
        Punct::SlashAssign => &[47, 61],
        Punct::PercentAssign => &[37, 61],
        Punct::AndAssign => &[38, 38, 61],
        Punct::OrAssign => &[124, 124, 61],
        Punct::CoalesceAssign => &[63, 63, 61],
        Punct::Arrow => &[61, 62],
    }
}

/// The signs that begin with the unit, the longer ones first.
fn signs_from(unit: u16) -> &'static [Punct]
    ensures { result.now ≡ readers.signs_from unit }
{
    match unit {
        33 => &[Punct::StrictNotEqual, Punct::NotEqual, Punct::Not],
        37 => &[Punct::PercentAssign, Punct::Percent],
        38 => &[Punct::AndAssign, Punct::And],
        40 => &[Punct::OpenParenthesis],
        41 => &[Punct::CloseParenthesis],
        42 => &[Punct::StarAssign, Punct::Star],
        43 => &[Punct::PlusPlus, Punct::PlusAssign, Punct::Plus],
        44 => &[Punct::Comma],
        45 => &[Punct::MinusMinus, Punct::MinusAssign, Punct::Minus],
        46 => &[Punct::Ellipsis, Punct::Dot],
        47 => &[Punct::SlashAssign, Punct::Slash],
        58 => &[Punct::Colon],
        59 => &[Punct::Semicolon],
        60 => &[Punct::LessOrEqual, Punct::Less],
        61 => &[
            Punct::StrictEqual,
            Punct::Equal,
            Punct::Arrow,
            Punct::Assign,
        ],
        62 => &[Punct::GreaterOrEqual, Punct::Greater],
        63 => &[
            Punct::CoalesceAssign,
            Punct::OptionalDot,
            Punct::Coalesce,
            Punct::Question,
        ],
        91 => &[Punct::OpenBracket],
        93 => &[Punct::CloseBracket],
        123 => &[Punct::OpenBrace],
        124 => &[Punct::OrAssign, Punct::Or],
        125 => &[Punct::CloseBrace],
        _ => &[],
    }
}

impl<'a> Cursor<'a> {
    /// The place after these units, where they come next.
    #[tactic(auto, unfolding(crate::specs::Readers::strip))]
    fn strip(&self, units: &[u16]) -> Option<Cursor<'a>>
        ensures { result ≡ readers.strip units.now self.now }
    {
        let mut left = self.left;
        let mut sought = units;
        while let [unit, more @ ..] = sought {
            match left {
                [] => return None,
                [first, rest @ ..] => {
                    if *first == *unit {
                        left = rest;
                        sought = more;
                    } else {
                        return None;
                    }
                }
            }
        }
        Some(Cursor { left })
    }

    /// Whether the sign may stand before this place.
    fn may_follow(&self, sign: Punct, in_template: bool) -> bool
        ensures { result ≡ signs.may_stand in_template sign self.now }
    {
        match sign {
            Punct::CloseBrace => !in_template,
            Punct::OptionalDot => !self.begins_digit(),
            Punct::Slash => !(self.begins(47) || self.begins(42)),
            _ => true,
        }
    }

    /// The place after the sign, where it stands here.
    fn sign_end(&self, sign: Punct, in_template: bool) -> Option<Cursor<'a>>
        ensures { result ≡ readers.sign_end in_template sign self.now }
    {
        match self.strip(spelling(sign)) {
            None => None,
            Some(after) => {
                if after.may_follow(sign, in_template) {
                    Some(after)
                } else {
                    None
                }
            }
        }
    }

    /// The first of the signs that stands here, and the place after it.
    #[tactic(auto, unfolding(crate::specs::Readers::first_sign))]
    fn first_sign(&self, signs: &[Punct], in_template: bool) -> Option<(Punct, Cursor<'a>)>
        ensures { result ≡ readers.first_sign signs.now in_template self.now }
    {
        let mut left = signs;
        while let [sign, more @ ..] = left {
            if let Some(after) = self.sign_end(*sign, in_template) {
                return Some((*sign, after));
            }
            left = more;
        }
        None
    }

    /// The longest sign that stands here, and the place after it.
    #[tactic(auto, unfolding(crate::specs::Readers::sign_at))]
    fn sign_at(&self, in_template: bool) -> Option<(Punct, Cursor<'a>)>
        ensures { result ≡ readers.sign_at in_template self.now }
    {
        match self.left {
            [] => None,
            [unit, ..] => self.first_sign(signs_from(*unit), in_template),
        }
    }

    /// Reads the longest sign that stands here, where the innermost open brace is `${` or not.
    pub fn sign(&mut self, in_template: bool) -> Option<Punct>
        ensures { Finds (Sign in_template) self.old result self.new }
    {
        match self.sign_at(in_template) {
            None => None,
            Some((sign, after)) => {
                *self = after;
                Some(sign)
            }
        }
    }
}
