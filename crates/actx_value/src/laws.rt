//! Laws of texts and their numbers. The functions do nothing: the contract of each is the law.

ghost use Rattle.actx_value.specs.Laws.{EqualTextsShareTheirLeastNumber, NumbersOutlastAdditions};

/// Two numbers have the same least number exactly where they have the same text.
pub fn equal_texts_share_their_least_number()
    ensures { EqualTextsShareTheirLeastNumber }
{}

/// A number keeps its text and its least number where a text is added.
pub fn numbers_outlast_additions()
    ensures { NumbersOutlastAdditions }
{}
