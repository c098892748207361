//! Units of a text and the characters that they make.

ghost use Rattle.std.specs.Prelude.{◌≡◌, true, ◌<◌, ◌≤◌};
ghost use Rattle.actx_lex.specs.Units as units;
ghost use Rattle.actx_lex.specs.Readers as readers;

pub fn is_line_end(unit: u16) -> bool
    ensures { result ≡ units.is_line_end unit }
{
    unit == 10 || unit == 13 || unit == 0x2028 || unit == 0x2029
}

pub fn is_white_space(unit: u16) -> bool
    ensures { result ≡ units.is_white_space unit }
{
    matches!(
        unit,
        9 | 11 | 12 | 32 | 0xA0 | 0x1680 | 0x2000..=0x200A | 0x202F | 0x205F | 0x3000 | 0xFEFF
    )
}

pub fn is_digit(unit: u16) -> bool
    ensures { result ≡ units.is_digit unit }
{
    48 <= unit && unit <= 57
}

pub fn is_hex_digit(unit: u16) -> bool
    ensures { result ≡ units.is_hex_digit unit }
{
    is_digit(unit) || (65 <= unit && unit <= 70) || (97 <= unit && unit <= 102)
}

pub fn hex_value(unit: u16) -> u16
    requires { units.is_hex_digit unit ≡ true }
    ensures value { result ≡ units.hex_value unit }
    ensures low { result < 16 }
{
    if is_digit(unit) {
        unit - 48
    } else if 65 <= unit && unit <= 70 {
        unit - 55
    } else {
        unit - 87
    }
}

pub fn is_high_surrogate(unit: u16) -> bool
    ensures { result ≡ units.is_high_surrogate unit }
{
    0xD800 <= unit && unit <= 0xDBFF
}

pub fn is_low_surrogate(unit: u16) -> bool
    ensures { result ≡ units.is_low_surrogate unit }
{
    0xDC00 <= unit && unit <= 0xDFFF
}

#[tactic(auto, unfolding(crate::specs::Units::starts_word))]
fn starts_word(code: u32) -> bool
    ensures { result ≡ units.starts_word code }
{
    code == 36
        || code == 95
        || match char::from_u32(code) {
            None => false,
            Some(ch) => unicode_ident::is_xid_start(ch),
        }
}

#[tactic(auto, unfolding(crate::specs::Units::continues_word))]
fn continues_word(code: u32) -> bool
    ensures { result ≡ units.continues_word code }
{
    code == 36
        || code == 0x200C
        || code == 0x200D
        || match char::from_u32(code) {
            None => false,
            Some(ch) => unicode_ident::is_xid_continue(ch),
        }
}

/// Whether the character may begin a word, or else whether it may go on with one.
pub fn fits(start: bool, code: u32) -> bool
    ensures { result ≡ readers.fits start code }
{
    if start {
        starts_word(code)
    } else {
        continues_word(code)
    }
}

/// Whether a sign may begin with the unit.
pub fn is_sign_unit(unit: u16) -> bool
    ensures { result ≡ readers.is_sign_unit unit }
{
    matches!(unit, 33 | 37..=38 | 40..=47 | 58..=63 | 91 | 93 | 123..=125)
}
