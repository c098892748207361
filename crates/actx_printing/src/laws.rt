//! A law of printing statements. The function does nothing: its contract is the law.

ghost use Rattle.actx_printing.specs.Laws.{HasOnePrinting};

/// A tree has at most one list of literals for each statement.
pub fn one_printing()
    ensures { HasOnePrinting }
{}
