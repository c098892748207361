//! Statements.

ghost use Rattle.actx_scope.specs.Holds.{Holds, inside_of};
ghost use Rattle.actx_scope_rules.specs.Nodes as nodes;
ghost use Rattle.actx_scope_rules.specs.Statements as statements;
ghost use Rattle.actx_scope.specs.Walks.{Adds, Binds, for_inner};
ghost use Rattle.actx_scope_rules.specs.declared.place.Role.TheVariants as roles;
ghost use Rattle.std.specs.Prelude.{◌≡◌, map, OnOk};
ghost use Rattle.actx_scope_rules.specs.Scopes.{slot_names};

use crate::bodies::Bodies;
use crate::repeats::pass_stmt;
use crate::walk::{Inner, Walk};
use actx_scope_rules::{
    EarlyKind, Place, Role, slots_of_caught, slots_of_first, slots_of_items, slots_of_target, when,
};
use actx_tree::{Catch, Expr, ForInit, Stmt, Target, Unread};
use sqlite_items::{Boxed, Items};
use std::alloc::AllocError;

impl<F: Fn(Bodies<'_>, Unread, Place, &mut Walk) -> Result<(), AllocError>> Inner<'_, F> {
    /// Statements in a row; the names that they declare stand before the place then.
    #[cycle(steps)]
    pub fn of_items(&self, items: &[Stmt], place: Place, walk: &mut Walk) -> Result<(), AllocError>
        requires holds { Holds self.now.bodies (F.pre self.now.body) (F.post self.now.body) }
        ensures { OnOk result (Binds (inside_of self.now.bodies) (statements.in_order (map statements.statement items.now)) (slot_names (statements.all_slots (map statements.statement items.now))) roles.Evaluated place walk.old walk.new) }
    {
        for item in items {
            self.of_stmt(item, place, walk)?;
            pass_stmt(self.bodies.alloc, item, &mut walk.earlier)?;
        }
        Ok(())
    }

    /// Statements in a scope of their own.
    #[cycle(steps)]
    pub fn of_block(&self, items: &[Stmt], place: Place, walk: &mut Walk) -> Result<(), AllocError>
        requires holds { Holds self.now.bodies (F.pre self.now.body) (F.post self.now.body) }
        ensures { OnOk result (Adds (inside_of self.now.bodies) (statements.block (map statements.statement items.now)) roles.Evaluated place walk.old walk.new) }
    {
        let slots = slots_of_items(self.bodies.alloc, items)?;
        let outer = walk.enter(self.bodies.alloc, slots)?;
        self.of_items(items, place, walk)?;
        walk.leave(outer);
        Ok(())
    }

    /// A statement.
    #[cycle(steps)]
    pub fn of_stmt(&self, item: &Stmt, place: Place, walk: &mut Walk) -> Result<(), AllocError>
        requires holds { Holds self.now.bodies (F.pre self.now.body) (F.post self.now.body) }
        ensures { OnOk result (Adds (inside_of self.now.bodies) ((statements.statement item.now).marks) roles.Evaluated place walk.old walk.new) }
    {
        match item {
            Stmt::Let(_, elems) => self.of_declared(elems.as_slice(), place, walk),
            Stmt::Function(function) => self.of_function(function, Role::Declared, place, walk),
            Stmt::Class(class) => self.of_class(class, Role::Declared, place, walk),
            Stmt::Block(items) => {
                walk.add(None, None)?;
                self.of_block(items.as_slice(), place, walk)?;
                Ok(())
            }
            Stmt::Empty => walk.add(None, None),
            Stmt::If(test, body, other) => {
                walk.add(None, None)?;
                self.of_expr(test, Role::Evaluated, place, walk)?;
                self.of_stmt(body.get(), place, walk)?;
                self.of_other(other, place, walk)?;
                Ok(())
            }
            Stmt::While(test, body) => {
                walk.add(None, None)?;
                self.of_expr(test, Role::Evaluated, place, walk)?;
                self.of_stmt(body.get(), place.in_turn(), walk)?;
                Ok(())
            }
            Stmt::Do(body, test) => {
                walk.add(None, None)?;
                self.of_stmt(body.get(), place.in_turn(), walk)?;
                self.of_expr(test, Role::Evaluated, place, walk)?;
                Ok(())
            }
            Stmt::For(first, test, update, body) => {
                walk.add(None, None)?;
                self.of_for(first, test, update, body.get(), place, walk)?;
                Ok(())
            }
            Stmt::ForOf(is_const, target, x, body) => {
                walk.add(None, None)?;
                self.of_for_target(*is_const, target, place, walk)?;
                self.of_expr(x, Role::Evaluated, place, walk)?;
                self.of_for_body(body.get(), *is_const, target, place, walk)?;
                Ok(())
            }
            Stmt::Return(x) => {
                walk.add(when(!place.in_function, EarlyKind::BadReturn), None)?;
                self.of_value(x, place, walk)?;
                Ok(())
            }
            Stmt::Throw(x) => {
                walk.add(None, None)?;
                self.of_expr(x, Role::Evaluated, place, walk)?;
                Ok(())
            }
            Stmt::Break => {
                walk.add(when(!place.in_loop, EarlyKind::BadBreak), None)?;
                Ok(())
            }
            Stmt::Continue => {
                walk.add(when(!place.in_loop, EarlyKind::BadBreak), None)?;
                Ok(())
            }
            Stmt::Try(items, handler, last) => {
                walk.add(None, None)?;
                self.of_block(items.as_slice(), place, walk)?;
                self.of_handler(handler, place, walk)?;
                match last {
                    Some(last) => {
                        self.of_block(last.as_slice(), place, walk)?;
                        Ok(())
                    }
                    None => Ok(()),
                }
            }
            Stmt::Expr(x) => {
                walk.add(None, None)?;
                self.of_expr(x, Role::Evaluated, place, walk)?;
                Ok(())
            }
        }
    }

    /// The statement after `else`, if there is one.
    #[cycle(steps)]
    fn of_other(
        &self,
        other: &Option<Boxed<Stmt>>,
        place: Place,
        walk: &mut Walk,
    ) -> Result<(), AllocError>
        requires holds { Holds self.now.bodies (F.pre self.now.body) (F.post self.now.body) }
        ensures { OnOk result (Adds (inside_of self.now.bodies) (statements.or_none statements.marks_of (nodes.mapped statements.statement other.now)) roles.Evaluated place walk.old walk.new) }
    {
        match other {
            Some(item) => self.of_stmt(item.get(), place, walk),
            None => Ok(()),
        }
    }

    /// A `for` with its head, in the scope of what comes first in it.
    #[cycle(steps)]
    fn of_for(
        &self,
        first: &ForInit,
        test: &Option<Expr>,
        update: &Option<Expr>,
        body: &Stmt,
        place: Place,
        walk: &mut Walk,
    ) -> Result<(), AllocError>
        requires holds { Holds self.now.bodies (F.pre self.now.body) (F.post self.now.body) }
        ensures { OnOk result (Adds (inside_of self.now.bodies) (statements.scoped (statements.for_init_slots first.now) (for_inner first.now test.now update.now (statements.statement body.now))) roles.Evaluated place walk.old walk.new) }
    {
        let slots = slots_of_first(self.bodies.alloc, first)?;
        let outer = walk.enter(self.bodies.alloc, slots)?;
        self.of_for_parts(first, test, update, body, place, walk)?;
        walk.leave(outer);
        Ok(())
    }

    /// The parts of a `for`.
    #[cycle(steps)]
    fn of_for_parts(
        &self,
        first: &ForInit,
        test: &Option<Expr>,
        update: &Option<Expr>,
        body: &Stmt,
        place: Place,
        walk: &mut Walk,
    ) -> Result<(), AllocError>
        requires holds { Holds self.now.bodies (F.pre self.now.body) (F.post self.now.body) }
        ensures { OnOk result (Adds (inside_of self.now.bodies) (for_inner first.now test.now update.now (statements.statement body.now)) roles.Evaluated place walk.old walk.new) }
    {
        self.of_first(first, place, walk)?;
        self.of_value(test, place, walk)?;
        self.of_value(update, place, walk)?;
        self.of_stmt(body, place.in_turn(), walk)?;
        Ok(())
    }

    /// The body of a `for .. of`, in the scope of a turn.
    #[cycle(steps)]
    fn of_for_body(
        &self,
        body: &Stmt,
        is_const: bool,
        target: &Target,
        place: Place,
        walk: &mut Walk,
    ) -> Result<(), AllocError>
        requires holds { Holds self.now.bodies (F.pre self.now.body) (F.post self.now.body) }
        ensures { OnOk result (Adds (inside_of self.now.bodies) (statements.scoped (statements.target_slots is_const target.now) (statements.looped (statements.statement body.now).marks)) roles.Evaluated place walk.old walk.new) }
    {
        let slots = slots_of_target(self.bodies.alloc, target, is_const)?;
        let outer = walk.enter(self.bodies.alloc, slots)?;
        self.of_stmt(body, place.in_turn(), walk)?;
        walk.leave(outer);
        Ok(())
    }

    /// A `catch`, if there is one.
    #[cycle(steps)]
    fn of_handler(
        &self,
        handler: &Option<Catch>,
        place: Place,
        walk: &mut Walk,
    ) -> Result<(), AllocError>
        requires holds { Holds self.now.bodies (F.pre self.now.body) (F.post self.now.body) }
        ensures { OnOk result (Adds (inside_of self.now.bodies) (statements.or_none statements.marks_of (nodes.mapped statements.handler_of handler.now)) roles.Evaluated place walk.old walk.new) }
    {
        match handler {
            Some(clause) => self.of_catch(clause, place, walk),
            None => Ok(()),
        }
    }

    /// A `catch`, in the scope of what it binds.
    #[cycle(steps)]
    fn of_catch(&self, clause: &Catch, place: Place, walk: &mut Walk) -> Result<(), AllocError>
        requires holds { Holds self.now.bodies (F.pre self.now.body) (F.post self.now.body) }
        ensures { OnOk result (Adds (inside_of self.now.bodies) ((statements.handler_of clause.now).marks) roles.Evaluated place walk.old walk.new) }
    {
        let slots = slots_of_caught(self.bodies.alloc, &clause.target)?;
        let outer = walk.enter(self.bodies.alloc, slots)?;
        self.of_caught(&clause.target, place, walk)?;
        self.of_block(clause.block.as_slice(), place, walk)?;
        walk.leave(outer);
        Ok(())
    }

    /// The statements of a body, behind the names of the parameters.
    pub fn of_body_items(
        &self,
        items: &[Stmt],
        place: Place,
        walk: &mut Walk,
    ) -> Result<(), AllocError>
        requires holds { Holds self.now.bodies (F.pre self.now.body) (F.post self.now.body) }
        ensures { OnOk result (Adds (inside_of self.now.bodies) (statements.body_marks items.now) roles.Evaluated place walk.old walk.new) }
    {
        let slots = slots_of_items(self.bodies.alloc, items)?;
        let opened = walk.scopes.open(self.bodies.alloc, slots)?;
        let start = walk.earlier.len();
        self.of_items(items, place, walk)?;
        walk.earlier.back_to(start);
        walk.scopes.close(opened);
        Ok(())
    }
}
