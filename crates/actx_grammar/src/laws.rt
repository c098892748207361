//! Laws: two spellings of one text are one, and what a spelled tree has against its tokens.

ghost use Rattle.actx_grammar.specs.Grammar.{SpExpr, SpAssign, SpLeft, SpTarget, SpParams};
ghost use Rattle.actx_grammar.specs.Laws.{OneExpression, OneAssign, OneLeft, OneTarget, OneParams, IsSmall, CountsLevels, IsReached};
ghost use Rattle.actx_tree.specs.Bodies.{expr_bodies, target_bodies, params_bodies};
ghost use Rattle.actx_tree.specs.Levels.{expr_levels, target_levels, params_levels};
ghost use Rattle.actx_tree.specs.Sizes.{expr_size, target_size, params_size};

/// The tokens up to a closer spell one Expr at most.
pub fn one_expression()
    ensures { OneExpression }
{}

/// The tokens up to a closer spell one Assign at most.
pub fn one_assign()
    ensures { OneAssign }
{}

/// The tokens up to `{` spell one Left at most.
pub fn one_left()
    ensures { OneLeft }
{}

/// Tokens spell one Target at most, with one end.
pub fn one_target()
    ensures { OneTarget }
{}

/// Tokens spell one list of parameters at most, with one end.
pub fn one_params()
    ensures { OneParams }
{}

/// A tree has a size of at most 16 for each of its tokens that stands in no function body.
pub fn small_trees()
    ensures expr { IsSmall SpExpr expr_size expr_bodies }
    ensures assign { IsSmall SpAssign expr_size expr_bodies }
    ensures left { IsSmall SpLeft expr_size expr_bodies }
    ensures target { IsSmall SpTarget target_size target_bodies }
    ensures params { IsSmall SpParams params_size params_bodies }
{}

/// The levels that a spelling counts are those of its tree, and there are no more of them than tokens.
pub fn counted_levels()
    ensures expr { CountsLevels SpExpr expr_levels }
    ensures assign { CountsLevels SpAssign expr_levels }
    ensures left { CountsLevels SpLeft expr_levels }
    ensures target { CountsLevels SpTarget target_levels }
    ensures params { CountsLevels SpParams params_levels }
{}

/// A function body in a tree lies no deeper than there are tokens around it.
pub fn reached_bodies()
    ensures expr { IsReached SpExpr expr_bodies }
    ensures assign { IsReached SpAssign expr_bodies }
    ensures left { IsReached SpLeft expr_bodies }
    ensures target { IsReached SpTarget target_bodies }
    ensures params { IsReached SpParams params_bodies }
{}
