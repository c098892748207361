//! Items of statements, scopes and classes.

use actx_code::{ClassMember, Declared, Form, Pattern};
use actx_text::BodyId;
use actx_value::{ScopeId, Value};
use actx_want::Completion;
use std::rc::Rc;

/// The functions that a scope declares from the one at this place on, and the form in it.
#[derive(Drop)]
pub struct Declarations {
    pub functions: Rc<Vec<Declared>>,
    pub at: usize,
    pub body: Rc<Form>,
    pub place: ScopeId,
}

/// What is done with a value in the course of a statement.
#[derive(Drop)]
pub enum StatementStep {
    /// It is the value so far; the form at this place is due.
    Sequenced(Rc<Vec<Rc<Form>>>, usize, ScopeId),
    /// It is the test's.
    Choosing(Rc<Form>, Rc<Form>, ScopeId),
    /// It is the first value of this cell.
    Initialising(u32, ScopeId),
    /// It is the scope of a block with these functions and this form.
    Entered(Rc<Vec<Declared>>, Rc<Form>, ScopeId),
    /// It is the function that this cell declares.
    Declaring(u32, Declarations),
    /// It answers the declaration before this place.
    DeclaredOne(Declarations),
    /// It is returned.
    Returning,
    /// It is thrown.
    Throwing,
    /// It is given to who resumed the generator.
    Yielding,
    /// It is waited for.
    Awaiting,
    /// It ended a finally block; this completion goes on.
    Settling(Completion),
    /// It is the scope of a catch clause: the target, the block and the thrown value.
    CatchEntered(Rc<Pattern>, Rc<Form>, Value, ScopeId),
    /// It answers the target of a catch clause; its block is due.
    CatchBlock(Rc<Form>, ScopeId),
}

/// The members of a class from the one at this place on, the class and its prototype object.
#[derive(Drop)]
pub struct ClassMembers {
    pub list: Rc<Vec<ClassMember>>,
    pub at: usize,
    pub class: Value,
    pub prototype: Value,
    pub place: ScopeId,
}

/// What is done with a value in the course of a class.
#[derive(Drop)]
pub enum ClassStep {
    /// It is the parent: the constructor's body, the key `prototype` and the members.
    Extending(BodyId, Value, Rc<Vec<ClassMember>>, ScopeId),
    /// It is the class: the key `prototype` and the members.
    Made(Value, Rc<Vec<ClassMember>>, ScopeId),
    /// It is the prototype object: the members and the class.
    PrototypeGot(Rc<Vec<ClassMember>>, Value, ScopeId),
    /// It is a method, of this home and key.
    MethodMade(Value, Value),
    /// It answers the method before this place.
    MethodDefined(ClassMembers),
}
