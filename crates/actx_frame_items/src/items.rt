//! What is left to do with a completion: one item for each place where a body waits for a request or a
//! part, and what a piece of work leads to.

mod ending;
mod list;
mod member;
mod name;
mod operator;
mod pattern;
mod statement;
mod walk;

use actx_code::{Element, Form, Key, Pattern};
use actx_value::{Request, ScopeId, Value};
use actx_want::Completion;
pub use ending::Ending;
pub use list::{EntryStep, List, ListEnd, ListStep};
pub use member::{Chain, ChainEnd, KeyUse, MemberStep};
pub use name::{NameStep, Spot};
pub use operator::OperatorStep;
pub use pattern::{Elements, PatternStep, Properties};
pub use statement::{ClassMembers, ClassStep, Declarations, StatementStep};
use std::rc::Rc;
pub use walk::{ForLoop, LoopStep, OfLoop, OfStep, WhileLoop};

/// What is done with a value. Any other completion passes.
#[derive(Drop)]
pub enum Step {
    Name(NameStep),
    Operator(OperatorStep),
    Member(MemberStep),
    List(ListStep),
    Entry(EntryStep),
    Pattern(PatternStep),
    Statement(StatementStep),
    Class(ClassStep),
    Loop(LoopStep),
    Of(OfStep),
}

/// What is done with the completion of what stands above it.
#[derive(Drop)]
pub enum Item {
    Value(Step),
    Ending(Ending),
}

/// What a piece of work leads to: a completion, a request, or a part that is to be begun.
#[derive(Drop)]
pub enum Control {
    Done(Completion),
    Ask(Request),
    /// A request with its list.
    AskWith(Request, Vec<Value>),
    Eval(Rc<Form>, ScopeId),
    /// A key, and what is done with it.
    UseKey(Key, ScopeId, KeyUse),
    /// A pattern that is to be bound to a value.
    Bind(Rc<Pattern>, ScopeId, Value),
    /// A target with its default that is to be bound to a value.
    BindElement(Element, ScopeId, Value),
}

/// What a piece of work leads to, and the items that go onto the stack before, the lowest first.
#[derive(Drop)]
pub enum Next {
    Just(Control),
    Under(Item, Control),
    UnderTwo(Item, Item, Control),
}
