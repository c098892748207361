//! What a tree may stand for: places, to which a value may be assigned, and chains.

ghost use Rattle.actx_grammar.specs.Kinds as kinds;
ghost use Rattle.actx_grammar.specs.Places as places;
ghost use Rattle.std.specs.Prelude.{◌≡◌};

use actx_tree::{BinaryOp, Expr, Suffix};

/// Whether `?.` stands before a suffix.
fn is_optional(suffix: &Suffix) -> bool
    ensures { result ≡ places.is_optional suffix.now }
{
    match suffix {
        Suffix::Member(optional, _) => *optional,
        Suffix::Index(optional, _) => *optional,
        Suffix::Call(optional, _) => *optional,
    }
}

/// Whether a suffix is `.name` or `[ .. ]`.
fn is_member(suffix: &Suffix) -> bool
    ensures { result ≡ places.is_member suffix.now }
{
    match suffix {
        Suffix::Member(_, _) | Suffix::Index(_, _) => true,
        Suffix::Call(_, _) => false,
    }
}

/// Whether no `?.` stands among the suffixes, and the last of them is a member.
fn ends_in_member(suffixes: &[Suffix]) -> bool
    ensures { result ≡ places.ends_in_member suffixes.now }
{
    let mut left = suffixes;
    while let [first, rest @ ..] = left {
        if is_optional(first) {
            return false;
        }
        if rest.is_empty() {
            return is_member(first);
        }
        left = rest;
    }
    false
}

/// Whether a tree is of `super`.
fn is_super(tree: &Expr) -> bool
    ensures { result ≡ places.is_super tree.now }
{
    matches!(tree, Expr::SuperCall(_) | Expr::SuperMember(_))
}

/// Whether a value may be assigned to the tree (ECMA-262 §13.15.1): a name, or a chain without
/// `?.` and not of `super` that ends in a member.
pub fn is_place(tree: &Expr) -> bool
    ensures { result ≡ places.is_place tree.now }
{
    match tree {
        Expr::Name(_) => true,
        Expr::Left(first, suffixes) => !is_super(first.get())
            && ends_in_member(suffixes.as_slice()),
        _ => false,
    }
}

/// The level of the chain that an operator makes, from 1 for `*` to 7 for `??`.
fn level_of(op: BinaryOp) -> usize
    ensures { result ≡ kinds.level_of op }
{
    match op {
        BinaryOp::Multiply | BinaryOp::Divide | BinaryOp::Remainder => 1,
        BinaryOp::Add | BinaryOp::Subtract => 2,
        BinaryOp::Less
        | BinaryOp::Greater
        | BinaryOp::LessOrEqual
        | BinaryOp::GreaterOrEqual
        | BinaryOp::InstanceOf
        | BinaryOp::In => 3,
        BinaryOp::Equal | BinaryOp::NotEqual | BinaryOp::StrictEqual | BinaryOp::StrictNotEqual =>
            4,
        BinaryOp::And => 5,
        BinaryOp::Or => 6,
        BinaryOp::Coalesce => 7,
    }
}

/// Whether a tree is a chain of `||` or `&&`, or of `??`, that isn't in brackets.
pub fn is_logical(tree: &Expr) -> bool
    ensures { result ≡ places.is_logical tree.now }
{
    match tree {
        Expr::Chain(_, operands) => match operands.as_slice() {
            [] => false,
            [first, ..] => 4 < level_of(first.op),
        },
        _ => false,
    }
}
