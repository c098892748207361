//! Items of patterns.

use actx_code::{Element, Pattern, Property};
use actx_value::{ScopeId, Value};
use std::rc::Rc;

/// An object pattern from the property at this place on, and the value that it takes apart.
#[derive(Drop)]
pub struct Properties {
    pub list: Rc<Vec<Property>>,
    pub at: usize,
    pub rest: Option<u32>,
    pub value: Value,
    pub place: ScopeId,
}

/// An array pattern from the element at this place on.
#[derive(Drop)]
pub struct Elements {
    pub list: Rc<Vec<Element>>,
    pub at: usize,
    pub rest: Option<u32>,
    pub place: ScopeId,
}

/// What is done with a value in the course of a pattern.
#[derive(Drop)]
pub enum PatternStep {
    /// It is bound to the pattern.
    Binding(Rc<Pattern>, ScopeId),
    /// It is bound to the target, or its default is.
    BindingElement(Rc<Element>, ScopeId),
    /// It is the first value of this cell.
    BindingSlot(u32, ScopeId),
    /// It is the value of the property at this place.
    PropertyGot(Properties),
    /// It answers the last property before this place.
    PropertyBound(Properties),
    /// It is the walk.
    Walking(Elements),
    /// It is the item for the element at this place, or the mark; the walk.
    ItemBound(Elements, Value),
    /// It answers an element past the end of the walk.
    PastEnd(Elements),
    /// It answers the Tick before the next item of `...`: the items so far, the walk and the slot.
    RestTaking(Vec<Value>, Value, u32, ScopeId),
    /// It is the next item of `...`, or the mark.
    RestComing(Vec<Value>, Value, u32, ScopeId),
}
