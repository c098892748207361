//! Parts of core forms as contracts speak of them.

use crate::core_form::Core;
use actx_code::Logic;
use actx_text::BodyId;
use actx_tree::StepOp;
use actx_value::{BinaryOp, Value};
use sqlite_items::{Boxed, Items};

/// As `Argument` of core forms.
#[cycle(core_form)]
#[derive(Drop)]
pub enum CoreArgument {
    One(Core),
    Spread(Core),
}

/// As `Caught`.
#[cycle(core_form)]
#[derive(Drop)]
pub enum CoreCaught {
    Unbound(Boxed<Core>),
    Bound(u32, CorePattern, Boxed<Core>),
}

/// As `Entry` of core forms.
#[cycle(core_form)]
#[derive(Drop)]
pub enum CoreEntry {
    Pair(CoreKey, Core),
    Method(CoreKey, BodyId),
    Copied(Core),
}

/// As `Change`.
#[cycle(core_form)]
#[derive(Drop)]
pub enum CoreChange {
    Plainly(Boxed<Core>),
    WithOperator(BinaryOp, Boxed<Core>),
    WithLogic(Logic, Boxed<Core>),
    StepBefore(StepOp),
    StepAfter(StepOp),
}

/// As `Key` of core forms.
#[cycle(core_form)]
#[derive(Drop)]
pub enum CoreKey {
    Plain(Value),
    Computed(Boxed<Core>),
}

/// As `Suffix` of core forms.
#[cycle(core_form)]
#[derive(Drop)]
pub enum CoreSuffix {
    Member(bool, CoreKey),
    Call(bool, Items<CoreArgument>),
}

/// As `Pattern`.
#[cycle(core_form)]
#[derive(Drop)]
pub enum CorePattern {
    Slot(u32),
    Properties(Items<CoreProperty>, Option<u32>),
    Elements(Items<CoreElement>, Option<u32>),
}

/// As `Operand` of core forms.
#[cycle(core_form)]
#[derive(Drop)]
pub enum CoreOperand {
    Operand(BinaryOp, Core),
}

/// As `Piece` of core forms.
#[cycle(core_form)]
#[derive(Drop)]
pub enum CorePiece {
    Piece(Core, Option<Value>),
}

/// As `Element`.
#[cycle(core_form)]
#[derive(Drop)]
pub enum CoreElement {
    Element(Boxed<CorePattern>, Option<Boxed<Core>>),
}

/// As `Property`.
#[cycle(core_form)]
#[derive(Drop)]
pub enum CoreProperty {
    Property(Value, CoreElement),
}
