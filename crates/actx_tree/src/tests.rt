//! Bodies of functions in small trees.
#![tactic(auto, using(crate::proofs::LevelEquations::levels_equations, crate::proofs::StmtLevelEquations::stmt_levels_equations))]

ghost use Rattle.actx_tree.specs.Levels as levels;
ghost use Rattle.std.specs.Prelude.{◌≡◌, IfOk};

use crate::{
    Argument, Expr, Flow, Function, Nested, Params, Stmt, Unread, bodies_of_expr, bodies_of_stmt,
    bodies_of_stmts,
};
use sqlite_items::{Boxed, Items};
use std::alloc::{AllocError, Global};
use std::test::Fail;

/// `function () { .. }` with its body at a place.
fn function_at(alloc: Global, from: usize) -> Function
    ensures { levels.function_levels result ≡ 1 }
{
    Function {
        flow: Flow::Plain,
        name: None,
        params: no_params(alloc),
        body: Unread { from, to: 1 },
    }
}

fn no_params(alloc: Global) -> Params
    ensures { levels.params_levels result ≡ 0 }
{
    Params {
        elems: Items::new(alloc),
        rest: None,
    }
}

/// `[ () => { .. } ]` with the body at a place.
fn listed(alloc: Global, from: usize) -> Result<Expr, AllocError>
    ensures { IfOk result (λ tree. levels.expr_levels tree ≡ 2) }
{
    let arrow = Expr::ArrowBlock(false, no_params(alloc), Unread { from, to: 2 });
    let mut arguments = Items::new(alloc);
    arguments.push(Argument::One(arrow))?;
    Ok(Expr::Array(arguments))
}

fn at(from: usize, to: usize, depth: usize) -> Nested {
    let range = Unread { from, to };
    Nested { range, depth }
}

#[test]
fn finds_bodies_in_source_order(rt: HostRuntime) -> Result<(), Fail> {
    // function () { .. }, [() => { .. }] with seven nodes around it
    let first = Boxed::new(rt.alloc(), Expr::Function(function_at(rt.alloc(), 30)))?;
    let mut others = Items::new(rt.alloc());
    others.push(listed(rt.alloc(), 20)?)?;
    let tree = Expr::Comma(first, others);
    let mut found = Items::new(rt.alloc());
    bodies_of_expr(&tree, 7, &mut found)?;
    assert_eq!(rt; found.as_slice(), [at(30, 1, 9), at(20, 2, 10)].as_slice());
    Ok(())
}

#[test]
fn finds_bodies_in_a_statement(rt: HostRuntime) -> Result<(), Fail> {
    // throw [() => { .. }];
    let statement = Stmt::Throw(listed(rt.alloc(), 20)?);
    let mut found = Items::new(rt.alloc());
    bodies_of_stmt(&statement, 0, &mut found)?;
    assert_eq!(rt; found.as_slice(), [at(20, 2, 3)].as_slice());
    Ok(())
}

#[test]
fn finds_bodies_in_statements(rt: HostRuntime) -> Result<(), Fail> {
    // function f() { .. } return [() => { .. }];
    let statements = [
        Stmt::Function(function_at(rt.alloc(), 30)),
        Stmt::Return(Some(listed(rt.alloc(), 20)?)),
    ];
    let mut found = Items::new(rt.alloc());
    bodies_of_stmts(&statements, 0, &mut found)?;
    assert_eq!(rt; found.as_slice(), [at(30, 1, 1), at(20, 2, 3)].as_slice());
    Ok(())
}
