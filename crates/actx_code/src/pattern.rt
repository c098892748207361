//! What a declaration or a parameter binds (ECMA-262 §8.6.2, §14.3.3).

use crate::form::Form;
use actx_value::Value;
use std::rc::Rc;

/// A pattern. Its slots are cells of the present scope.
#[cycle(form)]
#[derive(Drop)]
pub enum Pattern {
    /// A name.
    Slot(u32),
    /// An object pattern, and the slot of the name after `...`.
    Properties(Rc<Vec<Property>>, Option<u32>),
    /// An array pattern, and the slot of the name after `...`.
    Elements(Rc<Vec<Element>>, Option<u32>),
}

/// A target and its default.
#[cycle(form)]
#[derive(Drop)]
pub struct Element {
    pub target: Rc<Pattern>,
    pub default: Option<Rc<Form>>,
}

/// A property of an object pattern: its key, and what its value is bound to.
#[cycle(form)]
#[derive(Drop)]
pub struct Property {
    pub key: Value,
    pub element: Element,
}
