//! Laws: a file has one tree at most, and what a tree and its levels have against its tokens.

ghost use Rattle.actx_program.specs.Laws.{CountsStmtLevels, CountsItemLevels, OneBlock, BlocksUnread, OneProgram, SmallPrograms, FewLevels, GivesSpelled, SpellsGiven, SpellsNone, SpellsDeep};

/// The levels that a spelling counts are those of its statements, and there is at most one more of them
/// than tokens.
pub fn counted_levels()
    ensures stmt { CountsStmtLevels }
    ensures items { CountsItemLevels }
{}

/// Items up to a closing brace end at the brace that the search from the first of them finds. So it is no
/// restriction that the bodies of functions are passed over by their braces.
pub fn one_block()
    ensures end { OneBlock }
    ensures passed { BlocksUnread }
{}

/// A file has one tree at most.
pub fn one_program()
    ensures { OneProgram }
{}

/// The tree of a file, with its bodies, has a size of at most 16 for each token.
pub fn small_programs()
    ensures { SmallPrograms }
{}

/// The tree of a file, with its bodies, has at most one level more than tokens.
pub fn few_levels()
    ensures { FewLevels }
{}

/// The reader gives exactly what is spelled with 200 nodes around a node at most.
pub fn read_programs()
    ensures given { GivesSpelled }
    ensures spelled { SpellsGiven }
    ensures no_tree { SpellsNone }
    ensures too_nested { SpellsDeep }
{}
