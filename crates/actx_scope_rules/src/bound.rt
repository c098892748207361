//! The names that patterns, parameters and statements bind, as slots.

ghost use Rattle.actx_scope_rules.specs.Nodes as nodes;
ghost use Rattle.actx_scope_rules.specs.Statements as statements;
ghost use Rattle.actx_scope_rules.specs.Scopes.{slots_of, hidden_slots};
ghost use Rattle.actx_scope_rules.specs.Contexts.{own_name, named_scope};
ghost use Rattle.std.specs.Prelude.{◌≡◌, ◌∷◌, ◌++◌, [], false, map, OnOk, IfOk};

use crate::place::Role;
use crate::slot::Slot;
use actx_text::{Units, copy};
use actx_tree::{Elem, ForInit, Params, Prop, Stmt, Target};
use sqlite_items::{Boxed, Items};
use std::alloc::{AllocError, Global};

/// Adds the slot of a name.
fn add_name(
    alloc: Global,
    name: &Units,
    is_fixed: bool,
    slots: &mut Items<Slot>,
) -> Result<(), AllocError>
    ensures { OnOk result (slots.new ≡ slots.old ++ slots_of is_fixed (name.now ∷ [])) }
{
    let name = Some(copy(alloc, name)?);
    slots.push(Slot { name, is_fixed })
}

/// Adds the slot of a name that may be left out.
pub fn add_optional(
    alloc: Global,
    name: &Option<Units>,
    is_fixed: bool,
    slots: &mut Items<Slot>,
) -> Result<(), AllocError>
    ensures { OnOk result (slots.new ≡ slots.old ++ slots_of is_fixed (nodes.listed name.now)) }
{
    match name {
        Some(name) => add_name(alloc, name, is_fixed, slots),
        None => Ok(()),
    }
}

/// Adds the slots of the names that a target binds.
#[cycle(bound)]
pub fn add_target(
    alloc: Global,
    target: &Target,
    is_fixed: bool,
    slots: &mut Items<Slot>,
) -> Result<(), AllocError>
    ensures { OnOk result (slots.new ≡ slots.old ++ slots_of is_fixed (nodes.target_part target.now).names) }
{
    match target {
        Target::Name(name) => add_name(alloc, name, is_fixed, slots),
        Target::Object(props, rest) => {
            add_props(alloc, props.as_slice(), is_fixed, slots)?;
            add_optional(alloc, rest, is_fixed, slots)
        }
        Target::Array(elems, rest) => {
            add_elems(alloc, elems.as_slice(), is_fixed, slots)?;
            add_optional(alloc, rest, is_fixed, slots)
        }
    }
}

/// Adds the slots of the names that elements bind.
#[cycle(bound)]
pub fn add_elems(
    alloc: Global,
    elems: &[Elem],
    is_fixed: bool,
    slots: &mut Items<Slot>,
) -> Result<(), AllocError>
    ensures { OnOk result (slots.new ≡ slots.old ++ slots_of is_fixed (nodes.all_names (map nodes.elem_part elems.now))) }
{
    for elem in elems {
        add_elem(alloc, elem, is_fixed, slots)?;
    }
    Ok(())
}

/// Adds the slots of the names that properties of a pattern bind.
#[cycle(bound)]
fn add_props(
    alloc: Global,
    props: &[Prop],
    is_fixed: bool,
    slots: &mut Items<Slot>,
) -> Result<(), AllocError>
    ensures { OnOk result (slots.new ≡ slots.old ++ slots_of is_fixed (nodes.all_names (map nodes.prop_part props.now))) }
{
    for prop in props {
        add_prop(alloc, prop, is_fixed, slots)?;
    }
    Ok(())
}

/// Adds the slots of the names that an element binds.
#[cycle(bound)]
pub fn add_elem(
    alloc: Global,
    elem: &Elem,
    is_fixed: bool,
    slots: &mut Items<Slot>,
) -> Result<(), AllocError>
    ensures { OnOk result (slots.new ≡ slots.old ++ slots_of is_fixed (nodes.elem_part elem.now).names) }
{
    add_target(alloc, &elem.target, is_fixed, slots)
}

/// Adds the slots of the names that a property of a pattern binds.
#[cycle(bound)]
pub fn add_prop(
    alloc: Global,
    prop: &Prop,
    is_fixed: bool,
    slots: &mut Items<Slot>,
) -> Result<(), AllocError>
    ensures { OnOk result (slots.new ≡ slots.old ++ slots_of is_fixed (nodes.prop_part prop.now).names) }
{
    match prop {
        Prop::Shorthand(name, _) => add_name(alloc, name, is_fixed, slots),
        Prop::Pair(_, elem) => add_elem(alloc, elem, is_fixed, slots),
    }
}

/// Adds the slots of parameters.
pub fn add_params(alloc: Global, params: &Params, slots: &mut Items<Slot>) -> Result<(), AllocError>
    ensures { OnOk result (slots.new ≡ slots.old ++ slots_of false (nodes.params_part params.now).names) }
{
    add_elems(alloc, params.elems.as_slice(), false, slots)?;
    add_rest(alloc, &params.rest, slots)
}

/// Adds the slots of the target after `...`, if there is one.
fn add_rest(
    alloc: Global,
    rest: &Option<Boxed<Target>>,
    slots: &mut Items<Slot>,
) -> Result<(), AllocError>
    ensures { OnOk result (slots.new ≡ slots.old ++ slots_of false (nodes.all_names (nodes.listed (nodes.mapped nodes.target_part rest.now)))) }
{
    match rest {
        Some(target) => add_target(alloc, target.get(), false, slots),
        None => Ok(()),
    }
}

/// Adds the slots that a statement declares.
pub fn add_stmt(alloc: Global, item: &Stmt, slots: &mut Items<Slot>) -> Result<(), AllocError>
    ensures { OnOk result (slots.new ≡ slots.old ++ (statements.statement item.now).slots) }
{
    match item {
        Stmt::Let(is_const, elems) => add_elems(alloc, elems.as_slice(), *is_const, slots),
        Stmt::Function(function) => add_optional(alloc, &function.name, true, slots),
        Stmt::Class(class) => add_optional(alloc, &class.name, true, slots),
        Stmt::Block(_) => Ok(()),
        Stmt::Empty => Ok(()),
        Stmt::If(_, _, _) => Ok(()),
        Stmt::While(_, _) => Ok(()),
        Stmt::Do(_, _) => Ok(()),
        Stmt::For(_, _, _, _) => Ok(()),
        Stmt::ForOf(_, _, _, _) => Ok(()),
        Stmt::Return(_) => Ok(()),
        Stmt::Throw(_) => Ok(()),
        Stmt::Break => Ok(()),
        Stmt::Continue => Ok(()),
        Stmt::Try(_, _, _) => Ok(()),
        Stmt::Expr(_) => Ok(()),
    }
}

/// The slots that statements declare.
pub fn slots_of_items(alloc: Global, items: &[Stmt]) -> Result<Items<Slot>, AllocError>
    ensures { IfOk result (λ slots. slots ≡ statements.all_slots (map statements.statement items.now)) }
{
    let mut slots = Items::new(alloc);
    for item in items {
        add_stmt(alloc, item, &mut slots)?;
    }
    Ok(slots)
}

/// The slots of what comes first in the head of a `for`.
pub fn slots_of_first(alloc: Global, first: &ForInit) -> Result<Items<Slot>, AllocError>
    ensures { IfOk result (λ slots. slots ≡ statements.for_init_slots first.now) }
{
    let mut slots = Items::new(alloc);
    match first {
        ForInit::Nothing => Ok(slots),
        ForInit::Let(is_const, elems) => {
            add_elems(alloc, elems.as_slice(), *is_const, &mut slots)?;
            Ok(slots)
        }
        ForInit::Expr(_) => Ok(slots),
    }
}

/// The slots of a target.
pub fn slots_of_target(
    alloc: Global,
    target: &Target,
    is_const: bool,
) -> Result<Items<Slot>, AllocError>
    ensures { IfOk result (λ slots. slots ≡ statements.target_slots is_const target.now) }
{
    let mut slots = Items::new(alloc);
    add_target(alloc, target, is_const, &mut slots)?;
    Ok(slots)
}

/// The slots of what a `catch` binds.
pub fn slots_of_caught(alloc: Global, target: &Option<Target>) -> Result<Items<Slot>, AllocError>
    ensures { IfOk result (λ slots. slots ≡ statements.caught_slots target.now) }
{
    match target {
        Some(target) => slots_of_target(alloc, target, false),
        None => Ok(Items::new(alloc)),
    }
}

/// The own name of a function or a class, unless it is declared.
fn name_of(alloc: Global, role: Role, name: &Option<Units>) -> Result<Option<Units>, AllocError>
    ensures { IfOk result (λ n. n ≡ own_name role name.now) }
{
    match role {
        Role::Declared => Ok(None),
        Role::Evaluated => copy_name(alloc, name),
        Role::Assigned => copy_name(alloc, name),
    }
}

fn copy_name(alloc: Global, name: &Option<Units>) -> Result<Option<Units>, AllocError>
    ensures { IfOk result (λ n. n ≡ name.now) }
{
    match name {
        Some(name) => Ok(Some(copy(alloc, name)?)),
        None => Ok(None),
    }
}

/// The slots before the parameters of a function of this own name: `this`, the function, the home object.
pub fn hidden(alloc: Global, name: Option<Units>) -> Result<Items<Slot>, AllocError>
    ensures { IfOk result (λ slots. slots ≡ hidden_slots name) }
{
    let mut slots = Items::new(alloc);
    slots.push(Slot {
        name: None,
        is_fixed: true,
    })?;
    slots.push(Slot {
        name,
        is_fixed: true,
    })?;
    slots.push(Slot {
        name: None,
        is_fixed: true,
    })?;
    Ok(slots)
}

/// The hidden slots of a function.
pub fn hidden_of(alloc: Global, role: Role, name: &Option<Units>) -> Result<Items<Slot>, AllocError>
    ensures { IfOk result (λ slots. slots ≡ hidden_slots (own_name role name.now)) }
{
    let name = name_of(alloc, role, name)?;
    hidden(alloc, name)
}

/// The slot of a class expression with a name.
pub fn slots_of_class(
    alloc: Global,
    role: Role,
    name: &Option<Units>,
) -> Result<Items<Slot>, AllocError>
    ensures { IfOk result (λ slots. slots ≡ named_scope (own_name role name.now)) }
{
    let mut slots = Items::new(alloc);
    match name_of(alloc, role, name)? {
        Some(name) => {
            slots.push(Slot {
                name: Some(name),
                is_fixed: true,
            })?;
            Ok(slots)
        }
        None => Ok(slots),
    }
}
