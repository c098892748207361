//! Laws of the definitions. The functions do nothing: their contracts are the laws.

ghost use Rattle.actx_scalars.specs.Laws.{PlacesAreFirst, PiecesJoin, LengthsAreTold};

/// The place that `indexOf` finds is the first from the position on at which the text stands, and none
/// is found exactly where there is none.
pub fn places_are_first()
    ensures { PlacesAreFirst }
{}

/// The pieces of `split` that no limit cuts off, joined by the separator, are the text again.
pub fn pieces_join()
    ensures { PiecesJoin }
{}

/// How long the copies of a text are, and a text that is filled up.
pub fn lengths_are_told()
    ensures { LengthsAreTold }
{}
