//! Items of loops.

use actx_code::{Form, Pattern};
use actx_value::{ScopeId, Value};
use std::rc::Rc;

/// A `while` or a `do`.
#[derive(Drop)]
pub struct WhileLoop {
    pub test: Rc<Form>,
    pub body: Rc<Form>,
    pub place: ScopeId,
}

/// A `for`.
#[derive(Drop)]
pub struct ForLoop {
    pub test: Rc<Form>,
    pub update: Rc<Form>,
    pub body: Rc<Form>,
    pub place: ScopeId,
}

/// A `for-of`.
#[derive(Drop)]
pub struct OfLoop {
    pub cells: u32,
    pub target: Rc<Pattern>,
    pub body: Rc<Form>,
    pub place: ScopeId,
}

/// What is done with a value in the course of a loop.
#[derive(Drop)]
pub enum LoopStep {
    /// It answers the Tick of a turn of `while`.
    WhileTurn(WhileLoop),
    /// It is the test's, of `while`.
    WhileTested(WhileLoop),
    /// It answers the Tick of a turn of `do`.
    DoTurn(WhileLoop),
    /// It is the test's, of `do`.
    Repeating(WhileLoop),
    /// It answers the head or the update of `for`; a turn is due.
    ForDue(ForLoop),
    /// It answers the Tick of a turn of `for`.
    ForTurn(ForLoop),
    /// It is the test's, of `for`.
    ForTested(ForLoop),
    /// It is the scope of the head, of `for` with `let`; the declarations are due.
    LetEntered(Rc<Form>, ForLoop),
    /// It answers the declarations.
    LetDeclared(ForLoop),
    /// It is the first copy of the scope.
    LetStarted(ForLoop),
    /// It answers the Tick of a turn.
    LetTurn(ForLoop),
    /// It is the test's.
    LetTested(ForLoop),
    /// It is the next copy of the scope; the update is due.
    Updating(ForLoop),
    /// It answers the update; a turn is due.
    LetUpdated(ForLoop),
}

/// What is done with a value in the course of a `for-of`.
#[derive(Drop)]
pub enum OfStep {
    /// It is walked.
    Opening(OfLoop),
    /// It is the walk.
    Walking(OfLoop),
    /// It answers the Tick of a turn; the walk.
    Turn(OfLoop, Value),
    /// It is the next item of the walk, or the mark.
    ItemCame(OfLoop, Value),
    /// It is the scope of a turn: the walk and the item.
    ItemEntered(OfLoop, Value, Value),
}
