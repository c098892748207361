//! Laws of what forms want. The functions do nothing: the contract of each is the law.

ghost use Rattle.actx_want.specs.Laws.{EvaluatesByItsParts, FormsAreLocal, PatternsAreLocal, WhileAsksTickFirst, DoAsksTickFirst, ForAsksTickFirst, ForLetAsksTickFirst, ForOfAsksTickFirst, ItemsAskTickFirst};

/// What a form does is what its kind does with what its parts do: each form has its equation.
pub fn forms_are_evaluated_by_their_parts()
    ensures { EvaluatesByItsParts }
{}

/// A form looks at what comes after it only on the rest of the answers, and so does a pattern.
pub fn meanings_are_local()
    ensures forms { FormsAreLocal }
    ensures patterns { PatternsAreLocal }
{}

/// Each turn of a loop asks Tick first, and after the turn comes the loop again: `while`, `do`, `for`
/// with and without `let`, and `for-of`.
pub fn loops_ask_tick_first()
    ensures while_loop { WhileAsksTickFirst }
    ensures do_loop { DoAsksTickFirst }
    ensures for_loop { ForAsksTickFirst }
    ensures let_loop { ForLetAsksTickFirst }
    ensures of_loop { ForOfAsksTickFirst }
{}

/// Each item of a spread, and of `...` in an array pattern, asks Tick first.
pub fn items_ask_tick_first()
    ensures { ItemsAskTickFirst }
{}
