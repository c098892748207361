//! Laws of token lists.

ghost use Rattle.std.specs.Prelude.{◌≡◌, ◌≤◌, List, length};
ghost use Rattle.actx_lex.specs.declared.token.Token.{Token};
ghost use Rattle.actx_lex.specs.Units.{Text};
ghost use Rattle.actx_lex.specs.TokenLists.{SpellsTokens, StandBetween};

/// A text has at most one token list.
pub fn one_list()
    ensures { (text : Text) (ts us : List Token) → SpellsTokens ts text → SpellsTokens us text → ts ≡ us }
{}

/// Each token has a unit, and the tokens stand in order within the text.
pub fn order_of_tokens()
    ensures { (text : Text) (ts : List Token) → SpellsTokens ts text → StandBetween 0 (length text) ts }
{}
