//! Core forms as contracts speak of them: with lists and values where `Form` has shared ones, so that two
//! of them are equal exactly if they say the same.

use crate::core_parts::{
    CoreArgument, CoreCaught, CoreChange, CoreElement, CoreEntry, CoreKey, CoreOperand,
    CorePattern, CorePiece, CoreSuffix,
};
use actx_code::{ClassMember, Declared, Logic};
use actx_text::BodyId;
use actx_value::{UnaryOp, Value};
use sqlite_items::{Boxed, Items};

/// A core form, variant by variant as `Form`.
#[cycle(core_form)]
#[derive(Drop)]
pub enum Core {
    Literal(Value),
    Name(u32, u32),
    ChangeName(u32, u32, CoreChange),
    ChangeMember(Boxed<Core>, CoreKey, CoreChange),
    Delete(Boxed<Core>, Items<CoreSuffix>, bool, CoreKey),
    Unary(UnaryOp, Boxed<Core>),
    Not(Boxed<Core>),
    Void(Boxed<Core>),
    Operators(Boxed<Core>, Items<CoreOperand>),
    Logical(Logic, Boxed<Core>, Items<Core>),
    If(Boxed<Core>, Boxed<Core>, Boxed<Core>),
    Sequence(Items<Core>),
    Template(Value, Items<CorePiece>),
    Suffixes(Boxed<Core>, Items<CoreSuffix>),
    SuperMember(u32, Value, Items<CoreSuffix>),
    New(Boxed<Core>, Items<CoreArgument>),
    SuperCall(u32, Items<CoreArgument>),
    Array(Items<CoreArgument>),
    Object(Items<CoreEntry>),
    Function(BodyId),
    Class(BodyId, Option<Boxed<Core>>, Value, Items<ClassMember>),
    Init(u32, Boxed<Core>),
    Bind(CorePattern, Boxed<Core>),
    Block(u32, Items<Declared>, Boxed<Core>),
    While(Boxed<Core>, Boxed<Core>),
    DoWhile(Boxed<Core>, Boxed<Core>),
    For(Boxed<Core>, Boxed<Core>, Boxed<Core>, Boxed<Core>),
    ForLet(u32, Boxed<Core>, Boxed<Core>, Boxed<Core>, Boxed<Core>),
    ForOf(u32, CorePattern, Boxed<Core>, Boxed<Core>),
    Break(u32),
    Continue(u32),
    Return(Boxed<Core>),
    Throw(Boxed<Core>),
    Try(Boxed<Core>, Option<CoreCaught>, Option<Boxed<Core>>),
    Yield(Boxed<Core>),
    Await(Boxed<Core>),
    Parameter(u32, CoreElement),
    RestParameter(u32, CorePattern),
    Begin,
}
