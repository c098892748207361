//! Names that stand twice in one scope.

ghost use Rattle.actx_scope_rules.specs.Nodes as nodes;
ghost use Rattle.actx_scope_rules.specs.Conditions as condition;
ghost use Rattle.actx_scope_rules.specs.Scopes.{slot_names};
ghost use Rattle.actx_scope_rules.specs.Statements.{statement};
ghost use Rattle.std.specs.Prelude.{◌≡◌, ◌++◌, ◌||◌, map, OnOk, IfOk, [], None};

use actx_scope_rules::{Earlier, Role, add_elem, add_params, add_prop, add_stmt, either};
use actx_text::Units;
use actx_tree::{Elem, Params, Prop, Stmt, Target};
use sqlite_items::{Boxed, Items};
use std::alloc::{AllocError, Global};

/// Whether a function or a class is declared under a name that stands before it.
pub fn is_redeclared(role: Role, name: &Option<Units>, earlier: &Earlier) -> bool
    ensures { result ≡ condition.is_redeclared role name.now earlier.now }
{
    match role {
        Role::Declared => match name {
            Some(name) => earlier.has(name),
            None => false,
        },
        Role::Evaluated => false,
        Role::Assigned => false,
    }
}

fn target_repeats(target: &Target, earlier: &Earlier) -> bool
    ensures { result ≡ (nodes.target_part target.now).repeats earlier.now }
{
    match target {
        Target::Name(name) => earlier.has(name),
        Target::Object(_, _) => false,
        Target::Array(_, _) => false,
    }
}

fn elem_repeats(elem: &Elem, earlier: &Earlier) -> bool
    ensures { result ≡ (nodes.elem_part elem.now).repeats earlier.now }
{
    target_repeats(&elem.target, earlier)
}

fn prop_repeats(prop: &Prop, earlier: &Earlier) -> bool
    ensures { result ≡ (nodes.prop_part prop.now).repeats earlier.now }
{
    match prop {
        Prop::Shorthand(name, _) => earlier.has(name),
        Prop::Pair(_, elem) => elem_repeats(elem, earlier),
    }
}

/// Goes behind the names of an element.
pub fn pass_elem(alloc: Global, elem: &Elem, earlier: &mut Earlier) -> Result<(), AllocError>
    ensures { OnOk result (earlier.new ≡ earlier.old ++ (nodes.elem_part elem.now).names) }
{
    let mut slots = Items::new(alloc);
    add_elem(alloc, elem, false, &mut slots)?;
    earlier.add_all(slots.as_slice())
}

/// Goes behind the names of a property of a pattern.
pub fn pass_prop(alloc: Global, prop: &Prop, earlier: &mut Earlier) -> Result<(), AllocError>
    ensures { OnOk result (earlier.new ≡ earlier.old ++ (nodes.prop_part prop.now).names) }
{
    let mut slots = Items::new(alloc);
    add_prop(alloc, prop, false, &mut slots)?;
    earlier.add_all(slots.as_slice())
}

/// Whether elements repeat a name; goes behind their names.
fn pass_elems(alloc: Global, elems: &[Elem], earlier: &mut Earlier) -> Result<bool, AllocError>
    ensures whether { IfOk result (λ b. b ≡ nodes.any_repeats (map nodes.elem_part elems.now) earlier.old) }
    ensures behind { OnOk result (earlier.new ≡ earlier.old ++ nodes.all_names (map nodes.elem_part elems.now)) }
{
    let mut repeats = false;
    for elem in elems {
        repeats = either(repeats, elem_repeats(elem, earlier));
        pass_elem(alloc, elem, earlier)?;
    }
    Ok(repeats)
}

/// Whether properties repeat a name; goes behind their names.
fn pass_props(alloc: Global, props: &[Prop], earlier: &mut Earlier) -> Result<bool, AllocError>
    ensures whether { IfOk result (λ b. b ≡ nodes.any_repeats (map nodes.prop_part props.now) earlier.old) }
    ensures behind { OnOk result (earlier.new ≡ earlier.old ++ nodes.all_names (map nodes.prop_part props.now)) }
{
    let mut repeats = false;
    for prop in props {
        repeats = either(repeats, prop_repeats(prop, earlier));
        pass_prop(alloc, prop, earlier)?;
    }
    Ok(repeats)
}

/// Whether the name after `...` stands before it.
fn rest_repeats(rest: &Option<Units>, earlier: &Earlier) -> bool
    ensures { result ≡ nodes.any_repeats (nodes.rest_names rest.now) earlier.now }
{
    match rest {
        Some(name) => earlier.has(name),
        None => false,
    }
}

/// Whether an array pattern, or a declaration, binds a name that it or its scope has before.
pub fn elems_repeat(
    alloc: Global,
    elems: &[Elem],
    rest: &Option<Units>,
    earlier: &mut Earlier,
) -> Result<bool, AllocError>
    ensures whether { IfOk result (λ b. b ≡ nodes.any_repeats (map nodes.elem_part elems.now ++ nodes.rest_names rest.now) earlier.old) }
    ensures same { OnOk result (earlier.new ≡ earlier.old) }
{
    let start = earlier.len();
    let repeats = pass_elems(alloc, elems, earlier)?;
    let last = rest_repeats(rest, earlier);
    earlier.back_to(start);
    Ok(either(repeats, last))
}

/// Whether an object pattern binds a name that it or its scope has before.
pub fn props_repeat(
    alloc: Global,
    props: &[Prop],
    rest: &Option<Units>,
    earlier: &mut Earlier,
) -> Result<bool, AllocError>
    ensures whether { IfOk result (λ b. b ≡ nodes.any_repeats (map nodes.prop_part props.now ++ nodes.rest_names rest.now) earlier.old) }
    ensures same { OnOk result (earlier.new ≡ earlier.old) }
{
    let start = earlier.len();
    let repeats = pass_props(alloc, props, earlier)?;
    let last = rest_repeats(rest, earlier);
    earlier.back_to(start);
    Ok(either(repeats, last))
}

fn last_param_repeats(rest: &Option<Boxed<Target>>, earlier: &Earlier) -> bool
    ensures { result ≡ nodes.any_repeats (nodes.listed (nodes.mapped nodes.target_part rest.now)) earlier.now }
{
    match rest {
        Some(target) => target_repeats(target.get(), earlier),
        None => false,
    }
}

/// Whether parameters repeat a name.
pub fn params_repeat(alloc: Global, params: &Params) -> Result<bool, AllocError>
    ensures { IfOk result (λ b. b ≡ (nodes.params_part params.now).repeats []) }
{
    let mut earlier = Earlier::new(alloc);
    let repeats = pass_elems(alloc, params.elems.as_slice(), &mut earlier)?;
    let last = last_param_repeats(&params.rest, &earlier);
    Ok(either(repeats, last))
}

/// Goes behind the names of parameters.
pub fn pass_params(alloc: Global, params: &Params, earlier: &mut Earlier) -> Result<(), AllocError>
    ensures { OnOk result (earlier.new ≡ earlier.old ++ (nodes.params_part params.now).names) }
{
    let mut slots = Items::new(alloc);
    add_params(alloc, params, &mut slots)?;
    earlier.add_all(slots.as_slice())
}

/// Goes behind the names that a statement declares.
pub fn pass_stmt(alloc: Global, item: &Stmt, earlier: &mut Earlier) -> Result<(), AllocError>
    ensures { OnOk result (earlier.new ≡ earlier.old ++ slot_names (statement item.now).slots) }
{
    let mut slots = Items::new(alloc);
    add_stmt(alloc, item, &mut slots)?;
    earlier.add_all(slots.as_slice())
}
