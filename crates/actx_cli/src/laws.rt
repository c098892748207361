//! Laws of what is accepted and refused. The functions do nothing: the contract of each is the law.

ghost use Rattle.actx_cli.specs.Laws.{HasOneRefusal, HasOneText, IsNotBoth};

/// A file meets at most one refusal, at one place; but the places of `Tree` and `Nested` are hints, and a
/// file without a tree that has more than 100 tokens may get either of these two.
pub fn one_refusal()
    ensures { HasOneRefusal }
{}

/// A file that is accepted meets no refusal.
pub fn not_both()
    ensures { IsNotBoth }
{}

/// An accepted file prints one text.
pub fn one_text()
    ensures { HasOneText }
{}
