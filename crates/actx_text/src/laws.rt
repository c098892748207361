//! Laws of texts and their bytes. The functions do nothing: the contract of each is the law.

ghost use Rattle.actx_text.specs.Laws.{AreUnits, HasOneDecoding, BytesRoundTrip, TextRoundTrip, HasOneReading};

use crate::units::{Units, as_units};

/// Bytes are the UTF-8 of at most one list of scalar values.
pub fn one_decoding()
    ensures { HasOneDecoding }
{}

/// `to_utf8` of the text that `from_utf8` gives is the bytes again.
pub fn bytes_round_trip()
    ensures { BytesRoundTrip }
{}

/// `from_utf8` of the bytes that `to_utf8` gives is the text with U+FFFD in the place of each lone
/// surrogate.
pub fn text_round_trip()
    ensures { TextRoundTrip }
{}

/// A quoted text is read in one way, also where other bytes follow it.
pub fn one_reading()
    ensures { HasOneReading }
{}

/// Each unit of a text has 16 bits, which the laws ask for.
pub fn units_fit(t: &Units)
    ensures { AreUnits t.now }
{
    items_fit(as_units(t));
}

/// Each unit of a list has 16 bits, by its type.
fn items_fit(units: &[u16])
    ensures { AreUnits units.now }
{}
