//! The operators that tokens stand for.

ghost use Rattle.std.specs.Prelude.{◌≡◌};
ghost use Rattle.actx_grammar.specs.Kinds as kinds;

use actx_grammar::{Kind, Word};
use actx_lex::Punct;
use actx_tree::{AssignOp, BinaryOp, StepOp, UnaryOp};

/// The operator between two operands that the token is (§13.6 to §13.13).
pub fn binary_op(kind: Kind) -> Option<BinaryOp>
    ensures { result ≡ kinds.binary_op kind }
{
    match kind {
        Kind::Sign(Punct::Star) => Some(BinaryOp::Multiply),
        Kind::Sign(Punct::Slash) => Some(BinaryOp::Divide),
        Kind::Sign(Punct::Percent) => Some(BinaryOp::Remainder),
        Kind::Sign(Punct::Plus) => Some(BinaryOp::Add),
        Kind::Sign(Punct::Minus) => Some(BinaryOp::Subtract),
        Kind::Sign(Punct::Less) => Some(BinaryOp::Less),
        Kind::Sign(Punct::Greater) => Some(BinaryOp::Greater),
        Kind::Sign(Punct::LessOrEqual) => Some(BinaryOp::LessOrEqual),
        Kind::Sign(Punct::GreaterOrEqual) => Some(BinaryOp::GreaterOrEqual),
        Kind::Word(Word::Instanceof) => Some(BinaryOp::InstanceOf),
        Kind::Word(Word::In) => Some(BinaryOp::In),
        Kind::Sign(Punct::Equal) => Some(BinaryOp::Equal),
        Kind::Sign(Punct::NotEqual) => Some(BinaryOp::NotEqual),
        Kind::Sign(Punct::StrictEqual) => Some(BinaryOp::StrictEqual),
        Kind::Sign(Punct::StrictNotEqual) => Some(BinaryOp::StrictNotEqual),
        Kind::Sign(Punct::And) => Some(BinaryOp::And),
        Kind::Sign(Punct::Or) => Some(BinaryOp::Or),
        Kind::Sign(Punct::Coalesce) => Some(BinaryOp::Coalesce),
        _ => None,
    }
}

/// The level of a chain of the operator: 1 for products up to 6 for `||`, and 7 for `??`.
pub fn level_of(op: BinaryOp) -> usize
    ensures { result ≡ kinds.level_of op }
{
    match op {
        BinaryOp::Multiply | BinaryOp::Divide | BinaryOp::Remainder => 1,
        BinaryOp::Add | BinaryOp::Subtract => 2,
        BinaryOp::Less
        | BinaryOp::Greater
        | BinaryOp::LessOrEqual
        | BinaryOp::GreaterOrEqual
        | BinaryOp::InstanceOf
        | BinaryOp::In => 3,
        BinaryOp::Equal | BinaryOp::NotEqual | BinaryOp::StrictEqual | BinaryOp::StrictNotEqual =>
            4,
        BinaryOp::And => 5,
        BinaryOp::Or => 6,
        BinaryOp::Coalesce => 7,
    }
}

/// The operator before an operand that the token is (§13.5, and `await` of §15.8).
pub fn unary_op(kind: Kind) -> Option<UnaryOp>
    ensures { result ≡ kinds.unary_op kind }
{
    match kind {
        Kind::Sign(Punct::Not) => Some(UnaryOp::Not),
        Kind::Sign(Punct::Minus) => Some(UnaryOp::Minus),
        Kind::Sign(Punct::Plus) => Some(UnaryOp::Plus),
        Kind::Word(Word::Typeof) => Some(UnaryOp::TypeOf),
        Kind::Word(Word::Void) => Some(UnaryOp::Void),
        Kind::Word(Word::Delete) => Some(UnaryOp::Delete),
        Kind::Word(Word::Await) => Some(UnaryOp::Await),
        _ => None,
    }
}

/// `++` or `--` (§13.4).
pub fn step_op(kind: Kind) -> Option<StepOp>
    ensures { result ≡ kinds.step_op kind }
{
    match kind {
        Kind::Sign(Punct::PlusPlus) => Some(StepOp::Increment),
        Kind::Sign(Punct::MinusMinus) => Some(StepOp::Decrement),
        _ => None,
    }
}

/// The operator of assignment that the token is (§13.15).
pub fn assign_op(kind: Kind) -> Option<AssignOp>
    ensures { result ≡ kinds.assign_op kind }
{
    match kind {
        Kind::Sign(Punct::Assign) => Some(AssignOp::Plain),
        Kind::Sign(Punct::PlusAssign) => Some(AssignOp::Add),
        Kind::Sign(Punct::MinusAssign) => Some(AssignOp::Subtract),
        Kind::Sign(Punct::StarAssign) => Some(AssignOp::Multiply),
        Kind::Sign(Punct::SlashAssign) => Some(AssignOp::Divide),
        Kind::Sign(Punct::PercentAssign) => Some(AssignOp::Remainder),
        Kind::Sign(Punct::AndAssign) => Some(AssignOp::And),
        Kind::Sign(Punct::OrAssign) => Some(AssignOp::Or),
        Kind::Sign(Punct::CoalesceAssign) => Some(AssignOp::Coalesce),
        _ => None,
    }
}

/// Whether the token is `,`.
pub fn is_comma(kind: Kind) -> bool
    ensures { result ≡ kinds.is_comma kind }
{
    matches!(kind, Kind::Sign(Punct::Comma))
}

/// Whether the token is `?`.
pub fn is_question(kind: Kind) -> bool
    ensures { result ≡ kinds.is_question kind }
{
    matches!(kind, Kind::Sign(Punct::Question))
}

/// Whether the token is `{`.
pub fn is_open_brace(kind: Kind) -> bool
    ensures { result ≡ kinds.is_open_brace kind }
{
    matches!(kind, Kind::Sign(Punct::OpenBrace))
}

/// Whether the token is a word that isn't reserved.
pub fn is_name(kind: Kind) -> bool
    ensures { result ≡ kinds.is_name kind }
{
    matches!(kind, Kind::Name)
}

/// Whether the token is the word `yield`.
pub fn is_yield_word(kind: Kind) -> bool
    ensures { result ≡ kinds.is_yield_word kind }
{
    matches!(kind, Kind::Word(Word::Yield))
}
