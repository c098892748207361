//! What lies in the heads of statements.

ghost use Rattle.actx_scope.specs.Holds.{Holds, inside_of};
ghost use Rattle.actx_scope_rules.specs.Statements as statements;
ghost use Rattle.actx_scope.specs.Walks.{Adds};
ghost use Rattle.actx_scope_rules.specs.declared.place.Role.TheVariants as roles;
ghost use Rattle.std.specs.Prelude.{◌≡◌, OnOk};

use crate::bodies::Bodies;
use crate::walk::{Inner, Walk};
use actx_scope_rules::{Place, Role, slots_of_target};
use actx_tree::{Expr, ForInit, Target, Unread};
use std::alloc::AllocError;

impl<F: Fn(Bodies<'_>, Unread, Place, &mut Walk) -> Result<(), AllocError>> Inner<'_, F> {
    /// An expression of a statement that may be left out.
    pub fn of_value(
        &self,
        part: &Option<Expr>,
        place: Place,
        walk: &mut Walk,
    ) -> Result<(), AllocError>
        requires holds { Holds self.now.bodies (F.pre self.now.body) (F.post self.now.body) }
        ensures { OnOk result (Adds (inside_of self.now.bodies) (statements.or_none statements.expr_marks part.now) roles.Evaluated place walk.old walk.new) }
    {
        match part {
            Some(x) => self.of_expr(x, Role::Evaluated, place, walk),
            None => Ok(()),
        }
    }

    /// What comes first in the head of a `for`.
    pub fn of_first(&self, first: &ForInit, place: Place, walk: &mut Walk) -> Result<(), AllocError>
        requires holds { Holds self.now.bodies (F.pre self.now.body) (F.post self.now.body) }
        ensures { OnOk result (Adds (inside_of self.now.bodies) (statements.for_init_marks first.now) roles.Evaluated place walk.old walk.new) }
    {
        match first {
            ForInit::Nothing => Ok(()),
            ForInit::Let(_, elems) => self.of_declared(elems.as_slice(), place, walk),
            ForInit::Expr(x) => self.of_expr(x, Role::Evaluated, place, walk),
        }
    }

    /// The target of a `for .. of`, in the scope of its names.
    pub fn of_for_target(
        &self,
        is_const: bool,
        target: &Target,
        place: Place,
        walk: &mut Walk,
    ) -> Result<(), AllocError>
        requires holds { Holds self.now.bodies (F.pre self.now.body) (F.post self.now.body) }
        ensures { OnOk result (Adds (inside_of self.now.bodies) (statements.scoped (statements.target_slots is_const target.now) (statements.target_marks target.now)) roles.Evaluated place walk.old walk.new) }
    {
        let slots = slots_of_target(self.bodies.alloc, target, is_const)?;
        let outer = walk.enter(self.bodies.alloc, slots)?;
        self.of_target(target, place, walk)?;
        walk.leave(outer);
        Ok(())
    }

    /// What a `catch` binds.
    pub fn of_caught(
        &self,
        target: &Option<Target>,
        place: Place,
        walk: &mut Walk,
    ) -> Result<(), AllocError>
        requires holds { Holds self.now.bodies (F.pre self.now.body) (F.post self.now.body) }
        ensures { OnOk result (Adds (inside_of self.now.bodies) (statements.or_none statements.target_marks target.now) roles.Evaluated place walk.old walk.new) }
    {
        match target {
            Some(target) => self.of_target(target, place, walk),
            None => Ok(()),
        }
    }
}
