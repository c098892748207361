//! Laws of the texts of numbers. The function does nothing: its contract is the law.

ghost use Rattle.actx_ops.specs.Laws.{TextsOfNumbersAreRead};

/// A text goes to a number exactly where it is the decimal text of a safe integer, and then to that
/// integer.
pub fn texts_of_numbers_are_read()
    ensures { TextsOfNumbersAreRead }
{}
