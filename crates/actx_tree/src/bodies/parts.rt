//! The function bodies in expressions, patterns, functions and classes.
//!
//! Each function adds the bodies in a part that has `depth` nodes around it. None goes deeper into
//! the tree than there are levels of nodes below it.

ghost use Rattle.actx_tree.specs.Bodies as bodies;
ghost use Rattle.actx_tree.specs.Levels as levels;
ghost use Rattle.std.specs.Prelude.{◌≡◌, ◌++◌, ◌+◌, ◌<◌, ◌≤◌, map, OnOk};

use crate::bodies::WALKED_LEVELS;
use crate::expr::{Argument, Entry, Expr, Key, Operand, Piece, Suffix};
use crate::function::{Class, Function, Member, Method, Nested, Unread};
use crate::pattern::{Elem, Params, Prop, Target};
use sqlite_items::{Boxed, Items};
use std::alloc::AllocError;

#[cycle(walk)]
pub fn of_expr(tree: &Expr, depth: usize, found: &mut Items<Nested>) -> Result<(), AllocError>
    requires { depth + levels.expr_levels tree.now ≤ WALKED_LEVELS }
    ensures { OnOk result (found.new ≡ found.old ++ bodies.expr_bodies tree.now depth) }
{
    match tree {
        Expr::Name(_) | Expr::Number(_) | Expr::Text(_) | Expr::Bool(_) => Ok(()),
        Expr::Null | Expr::This | Expr::SuperMember(_) => Ok(()),
        Expr::Template(_, pieces) => of_pieces(pieces.as_slice(), depth + 1, found),
        Expr::Brackets(x) | Expr::StepBefore(_, x) | Expr::StepAfter(x, _) | Expr::Unary(_, x) => {
            of_expr(x.get(), depth + 1, found)
        }
        Expr::Array(arguments) | Expr::SuperCall(arguments) => {
            of_arguments(arguments.as_slice(), depth + 1, found)
        }
        Expr::Object(entries) => of_entries(entries.as_slice(), depth + 1, found),
        Expr::Function(function) => of_function(function, depth, found),
        Expr::Class(class) => of_class(class, depth, found),
        Expr::New(x, suffixes, arguments) => {
            of_expr(x.get(), depth + 1, found)?;
            of_suffixes(suffixes.as_slice(), depth + 1, found)?;
            match arguments {
                Some(arguments) => of_arguments(arguments.as_slice(), depth + 1, found),
                None => Ok(()),
            }
        }
        Expr::Left(x, suffixes) => {
            of_expr(x.get(), depth + 1, found)?;
            of_suffixes(suffixes.as_slice(), depth + 1, found)
        }
        Expr::Chain(x, operands) => {
            of_expr(x.get(), depth + 1, found)?;
            of_operands(operands.as_slice(), depth + 1, found)
        }
        Expr::Conditional(test, then, other) => {
            of_expr(test.get(), depth + 1, found)?;
            of_expr(then.get(), depth + 1, found)?;
            of_expr(other.get(), depth + 1, found)
        }
        Expr::Assign(place, _, x) => {
            of_expr(place.get(), depth + 1, found)?;
            of_expr(x.get(), depth + 1, found)
        }
        Expr::Yield(x) => of_optional(x, depth + 1, found),
        Expr::Arrow(_, params, x) => {
            of_params(params, depth + 1, found)?;
            of_expr(x.get(), depth + 1, found)
        }
        Expr::ArrowBlock(_, params, body) => {
            of_params(params, depth + 1, found)?;
            add(*body, depth, found)
        }
        Expr::Comma(x, xs) => {
            of_expr(x.get(), depth + 1, found)?;
            of_exprs(xs.as_slice(), depth + 1, found)
        }
    }
}

#[cycle(walk)]
fn of_optional(
    part: &Option<Boxed<Expr>>,
    depth: usize,
    found: &mut Items<Nested>,
) -> Result<(), AllocError>
    requires { depth + levels.or_zero levels.expr_levels part.now ≤ WALKED_LEVELS }
    ensures { OnOk result (found.new ≡ found.old ++ bodies.or_none bodies.expr_bodies part.now depth) }
{
    match part {
        Some(x) => of_expr(x.get(), depth, found),
        None => Ok(()),
    }
}

#[cycle(walk)]
pub fn of_exprs(trees: &[Expr], depth: usize, found: &mut Items<Nested>) -> Result<(), AllocError>
    requires { depth + levels.highest (map levels.expr_levels trees.now) ≤ WALKED_LEVELS }
    ensures { OnOk result (found.new ≡ found.old ++ bodies.all (map bodies.expr_bodies trees.now) depth) }
{
    for tree in trees {
        of_expr(tree, depth, found)?;
    }
    Ok(())
}

#[cycle(walk)]
pub fn of_pieces(
    pieces: &[Piece],
    depth: usize,
    found: &mut Items<Nested>,
) -> Result<(), AllocError>
    requires { depth + levels.highest (map levels.piece_levels pieces.now) ≤ WALKED_LEVELS }
    ensures { OnOk result (found.new ≡ found.old ++ bodies.all (map bodies.piece_bodies pieces.now) depth) }
{
    for piece in pieces {
        of_expr(&piece.value, depth, found)?;
    }
    Ok(())
}

#[cycle(walk)]
pub fn of_operands(
    operands: &[Operand],
    depth: usize,
    found: &mut Items<Nested>,
) -> Result<(), AllocError>
    requires { depth + levels.highest (map levels.operand_levels operands.now) ≤ WALKED_LEVELS }
    ensures { OnOk result (found.new ≡ found.old ++ bodies.all (map bodies.operand_bodies operands.now) depth) }
{
    for operand in operands {
        of_expr(&operand.right, depth, found)?;
    }
    Ok(())
}

#[cycle(walk)]
pub fn of_arguments(
    arguments: &[Argument],
    depth: usize,
    found: &mut Items<Nested>,
) -> Result<(), AllocError>
    requires { depth + levels.highest (map levels.argument_levels arguments.now) ≤ WALKED_LEVELS }
    ensures { OnOk result (found.new ≡ found.old ++ bodies.all (map bodies.argument_bodies arguments.now) depth) }
{
    for argument in arguments {
        of_argument(argument, depth, found)?;
    }
    Ok(())
}

#[cycle(walk)]
pub fn of_argument(
    argument: &Argument,
    depth: usize,
    found: &mut Items<Nested>,
) -> Result<(), AllocError>
    requires { depth + levels.argument_levels argument.now ≤ WALKED_LEVELS }
    ensures { OnOk result (found.new ≡ found.old ++ bodies.argument_bodies argument.now depth) }
{
    match argument {
        Argument::One(x) | Argument::Spread(x) => of_expr(x, depth, found),
    }
}

#[cycle(walk)]
pub fn of_entries(
    entries: &[Entry],
    depth: usize,
    found: &mut Items<Nested>,
) -> Result<(), AllocError>
    requires { depth + levels.highest (map levels.entry_levels entries.now) ≤ WALKED_LEVELS }
    ensures { OnOk result (found.new ≡ found.old ++ bodies.all (map bodies.entry_bodies entries.now) depth) }
{
    for entry in entries {
        of_entry(entry, depth, found)?;
    }
    Ok(())
}

#[cycle(walk)]
pub fn of_entry(entry: &Entry, depth: usize, found: &mut Items<Nested>) -> Result<(), AllocError>
    requires { depth + levels.entry_levels entry.now ≤ WALKED_LEVELS }
    ensures { OnOk result (found.new ≡ found.old ++ bodies.entry_bodies entry.now depth) }
{
    match entry {
        Entry::Spread(x) => of_expr(x, depth, found),
        Entry::Shorthand(_) => Ok(()),
        Entry::Pair(key, x) => {
            of_key(key, depth, found)?;
            of_expr(x, depth, found)
        }
        Entry::Method(method) => of_method(method, depth, found),
    }
}

#[cycle(walk)]
pub fn of_key(key: &Key, depth: usize, found: &mut Items<Nested>) -> Result<(), AllocError>
    requires { depth + levels.key_levels key.now ≤ WALKED_LEVELS }
    ensures { OnOk result (found.new ≡ found.old ++ bodies.key_bodies key.now depth) }
{
    match key {
        Key::Word(_) | Key::Text(_) | Key::Number(_) => Ok(()),
        Key::Computed(x) => of_expr(x.get(), depth, found),
    }
}

#[cycle(walk)]
pub fn of_suffixes(
    suffixes: &[Suffix],
    depth: usize,
    found: &mut Items<Nested>,
) -> Result<(), AllocError>
    requires { depth + levels.highest (map levels.suffix_levels suffixes.now) ≤ WALKED_LEVELS }
    ensures { OnOk result (found.new ≡ found.old ++ bodies.all (map bodies.suffix_bodies suffixes.now) depth) }
{
    for suffix in suffixes {
        of_suffix(suffix, depth, found)?;
    }
    Ok(())
}

#[cycle(walk)]
pub fn of_suffix(suffix: &Suffix, depth: usize, found: &mut Items<Nested>) -> Result<(), AllocError>
    requires { depth + levels.suffix_levels suffix.now ≤ WALKED_LEVELS }
    ensures { OnOk result (found.new ≡ found.old ++ bodies.suffix_bodies suffix.now depth) }
{
    match suffix {
        Suffix::Member(_, _) => Ok(()),
        Suffix::Index(_, x) => of_expr(x, depth, found),
        Suffix::Call(_, arguments) => of_arguments(arguments.as_slice(), depth, found),
    }
}

#[cycle(walk)]
pub fn of_function(
    function: &Function,
    depth: usize,
    found: &mut Items<Nested>,
) -> Result<(), AllocError>
    requires { depth + levels.function_levels function.now ≤ WALKED_LEVELS }
    ensures { OnOk result (found.new ≡ found.old ++ bodies.function_bodies function.now depth) }
{
    of_params(&function.params, depth + 1, found)?;
    add(function.body, depth, found)
}

#[cycle(walk)]
pub fn of_method(method: &Method, depth: usize, found: &mut Items<Nested>) -> Result<(), AllocError>
    requires { depth + levels.method_levels method.now ≤ WALKED_LEVELS }
    ensures { OnOk result (found.new ≡ found.old ++ bodies.method_bodies method.now depth) }
{
    of_key(&method.key, depth + 1, found)?;
    of_params(&method.params, depth + 1, found)?;
    add(method.body, depth, found)
}

#[cycle(walk)]
pub fn of_class(class: &Class, depth: usize, found: &mut Items<Nested>) -> Result<(), AllocError>
    requires { depth + levels.class_levels class.now ≤ WALKED_LEVELS }
    ensures { OnOk result (found.new ≡ found.old ++ bodies.class_bodies class.now depth) }
{
    of_optional(&class.parent, depth + 1, found)?;
    of_members(class.members.as_slice(), depth + 1, found)
}

#[cycle(walk)]
pub fn of_members(
    members: &[Member],
    depth: usize,
    found: &mut Items<Nested>,
) -> Result<(), AllocError>
    requires { depth + levels.highest (map levels.member_levels members.now) ≤ WALKED_LEVELS }
    ensures { OnOk result (found.new ≡ found.old ++ bodies.all (map bodies.member_bodies members.now) depth) }
{
    for member in members {
        of_method(&member.method, depth, found)?;
    }
    Ok(())
}

#[cycle(walk)]
pub fn of_target(target: &Target, depth: usize, found: &mut Items<Nested>) -> Result<(), AllocError>
    requires { depth + levels.target_levels target.now ≤ WALKED_LEVELS }
    ensures { OnOk result (found.new ≡ found.old ++ bodies.target_bodies target.now depth) }
{
    match target {
        Target::Name(_) => Ok(()),
        Target::Object(props, _) => of_props(props.as_slice(), depth + 1, found),
        Target::Array(elems, _) => of_elems(elems.as_slice(), depth + 1, found),
    }
}

#[cycle(walk)]
pub fn of_props(props: &[Prop], depth: usize, found: &mut Items<Nested>) -> Result<(), AllocError>
    requires { depth + levels.highest (map levels.prop_levels props.now) ≤ WALKED_LEVELS }
    ensures { OnOk result (found.new ≡ found.old ++ bodies.all (map bodies.prop_bodies props.now) depth) }
{
    for prop in props {
        of_prop(prop, depth, found)?;
    }
    Ok(())
}

#[cycle(walk)]
pub fn of_prop(prop: &Prop, depth: usize, found: &mut Items<Nested>) -> Result<(), AllocError>
    requires { depth + levels.prop_levels prop.now ≤ WALKED_LEVELS }
    ensures { OnOk result (found.new ≡ found.old ++ bodies.prop_bodies prop.now depth) }
{
    match prop {
        Prop::Shorthand(_, default) => of_optional(default, depth, found),
        Prop::Pair(key, elem) => {
            of_key(key, depth, found)?;
            of_elem(elem, depth, found)
        }
    }
}

#[cycle(walk)]
pub fn of_elems(elems: &[Elem], depth: usize, found: &mut Items<Nested>) -> Result<(), AllocError>
    requires { depth + levels.highest (map levels.elem_levels elems.now) ≤ WALKED_LEVELS }
    ensures { OnOk result (found.new ≡ found.old ++ bodies.all (map bodies.elem_bodies elems.now) depth) }
{
    for elem in elems {
        of_elem(elem, depth, found)?;
    }
    Ok(())
}

#[cycle(walk)]
pub fn of_elem(elem: &Elem, depth: usize, found: &mut Items<Nested>) -> Result<(), AllocError>
    requires { depth + levels.elem_levels elem.now ≤ WALKED_LEVELS }
    ensures { OnOk result (found.new ≡ found.old ++ bodies.elem_bodies elem.now depth) }
{
    of_target(&elem.target, depth, found)?;
    of_optional(&elem.default, depth, found)
}

#[cycle(walk)]
pub fn of_params(params: &Params, depth: usize, found: &mut Items<Nested>) -> Result<(), AllocError>
    requires { depth + levels.params_levels params.now ≤ WALKED_LEVELS }
    ensures { OnOk result (found.new ≡ found.old ++ bodies.params_bodies params.now depth) }
{
    of_elems(params.elems.as_slice(), depth, found)?;
    match &params.rest {
        Some(target) => of_target(target.get(), depth, found),
        None => Ok(()),
    }
}

/// Adds the body of a function that has `depth` nodes around it.
pub fn add(body: Unread, depth: usize, found: &mut Items<Nested>) -> Result<(), AllocError>
    requires { depth < WALKED_LEVELS }
    ensures { OnOk result (found.new ≡ found.old ++ bodies.body_at body depth) }
{
    found.push(Nested {
        range: body,
        depth: depth + 1,
    })
}
