//! Functions, methods and classes.

ghost use Rattle.actx_scope.specs.Holds.{Holds, inside_of};
ghost use Rattle.actx_scope_rules.specs.Nodes as nodes;
ghost use Rattle.actx_scope.specs.Walks.{Adds, Begins, Ends, called, named, class_inner};
ghost use Rattle.actx_scope_rules.specs.declared.place.Role.TheVariants as roles;
ghost use Rattle.std.specs.Prelude.{◌≡◌, map, true, false, OnOk, IfOk};
ghost use Rattle.actx_tree.specs.declared.function.Class.{out-Class};

use crate::bodies::Bodies;
use crate::repeats::{is_redeclared, params_repeat, pass_params};
use crate::walk::{Inner, Outer, Walk};
use actx_scope_rules::{
    EarlyKind, Owner, Place, Role, Slot, add_params, arrow_flow_of, either, hidden, hidden_of,
    is_constructor_member, is_derived_constructor, is_wrong_constructor, method_error,
    slots_of_class, when,
};
use actx_tree::{Class, Expr, Flow, Function, Member, Method, Params, Unread};
use sqlite_items::Items;
use std::alloc::AllocError;

impl<F: Fn(Bodies<'_>, Unread, Place, &mut Walk) -> Result<(), AllocError>> Inner<'_, F> {
    /// The parameters of a function and its body, in the scope of the parameters behind these slots.
    #[cycle(walk)]
    pub fn of_called(
        &self,
        hidden: Items<Slot>,
        params: &Params,
        flow: Flow,
        body: Unread,
        place: Place,
        walk: &mut Walk,
    ) -> Result<(), AllocError>
        requires holds { Holds self.now.bodies (F.pre self.now.body) (F.post self.now.body) }
        ensures { OnOk result (Adds (inside_of self.now.bodies) (called hidden (nodes.params_part params.now) place flow (nodes.body_marks body)) roles.Evaluated place walk.old walk.new) }
    {
        let mut slots = hidden;
        add_params(self.bodies.alloc, params, &mut slots)?;
        let outer = walk.enter_params(self.bodies.alloc, slots)?;
        self.of_params(params, place, walk)?;
        self.of_body_behind(params, body, place.in_body(flow), walk)?;
        walk.leave(outer);
        Ok(())
    }

    /// The body of a function, behind the names of its parameters.
    fn of_body_behind(
        &self,
        params: &Params,
        body: Unread,
        place: Place,
        walk: &mut Walk,
    ) -> Result<(), AllocError>
        requires holds { Holds self.now.bodies (F.pre self.now.body) (F.post self.now.body) }
        ensures { OnOk result (Adds (inside_of self.now.bodies) (named (nodes.params_part params.now).names (nodes.body_marks body)) roles.Evaluated place walk.old walk.new) }
    {
        let start = walk.earlier.len();
        pass_params(self.bodies.alloc, params, &mut walk.earlier)?;
        self.of_body(body, place, walk)?;
        walk.earlier.back_to(start);
        Ok(())
    }

    /// An arrow up to its value, with its parameters at this place; what is to be put back behind it.
    #[cycle(walk)]
    pub fn of_arrow_head(
        &self,
        params: &Params,
        place: Place,
        walk: &mut Walk,
    ) -> Result<Outer, AllocError>
        requires holds { Holds self.now.bodies (F.pre self.now.body) (F.post self.now.body) }
        ensures begins { OnOk result (Begins (inside_of self.now.bodies) (nodes.params_part params.now) place walk.old walk.new) }
        ensures outer { IfOk result (λ o. o ≡ record { earlier = walk.old.earlier; opened = true }) }
    {
        let repeats = params_repeat(self.bodies.alloc, params)?;
        walk.add(when(repeats, EarlyKind::Redeclared), None)?;
        let mut slots = Items::new(self.bodies.alloc);
        add_params(self.bodies.alloc, params, &mut slots)?;
        let outer = walk.enter_params(self.bodies.alloc, slots)?;
        self.of_params(params, place, walk)?;
        Ok(outer)
    }

    /// The value of an arrow behind its parameters, and out of their scope.
    #[cycle(walk)]
    pub fn of_arrow_value(
        &self,
        x: &Expr,
        params: &Params,
        outer: Outer,
        place: Place,
        walk: &mut Walk,
    ) -> Result<(), AllocError>
        requires holds { Holds self.now.bodies (F.pre self.now.body) (F.post self.now.body) }
        ensures { OnOk result (Ends (inside_of self.now.bodies) (nodes.params_part params.now).names (nodes.expr_part x.now).marks place outer walk.old walk.new) }
    {
        pass_params(self.bodies.alloc, params, &mut walk.earlier)?;
        self.of_expr(x, Role::Evaluated, place, walk)?;
        walk.leave(outer);
        Ok(())
    }

    /// An arrow whose body is a block.
    #[cycle(walk)]
    pub fn of_arrow_block(
        &self,
        is_async: bool,
        params: &Params,
        body: Unread,
        place: Place,
        walk: &mut Walk,
    ) -> Result<(), AllocError>
        requires holds { Holds self.now.bodies (F.pre self.now.body) (F.post self.now.body) }
        ensures { OnOk result (Adds (inside_of self.now.bodies) (nodes.arrow_node is_async (nodes.params_part params.now) (nodes.body_marks body)) roles.Evaluated place walk.old walk.new) }
    {
        let repeats = params_repeat(self.bodies.alloc, params)?;
        walk.add(when(repeats, EarlyKind::Redeclared), None)?;
        let hidden = Items::new(self.bodies.alloc);
        self.of_called(
            hidden,
            params,
            arrow_flow_of(is_async),
            body,
            place.in_arrow(),
            walk,
        )?;
        Ok(())
    }

    /// A function in this role.
    #[cycle(walk)]
    pub fn of_function(
        &self,
        function: &Function,
        role: Role,
        place: Place,
        walk: &mut Walk,
    ) -> Result<(), AllocError>
        requires holds { Holds self.now.bodies (F.pre self.now.body) (F.post self.now.body) }
        ensures { OnOk result (Adds (inside_of self.now.bodies) ((nodes.function_part function.now).marks) role place walk.old walk.new) }
    {
        let repeats = params_repeat(self.bodies.alloc, &function.params)?;
        let is_wrong = either(is_redeclared(role, &function.name, &walk.earlier), repeats);
        walk.add(when(is_wrong, EarlyKind::Redeclared), None)?;
        let hidden = hidden_of(self.bodies.alloc, role, &function.name)?;
        self.of_called(
            hidden,
            &function.params,
            function.flow,
            function.body,
            place.in_function(),
            walk,
        )?;
        Ok(())
    }

    /// A method.
    #[cycle(walk)]
    pub fn of_method(
        &self,
        method: &Method,
        place: Place,
        walk: &mut Walk,
    ) -> Result<(), AllocError>
        requires holds { Holds self.now.bodies (F.pre self.now.body) (F.post self.now.body) }
        ensures { OnOk result (Adds (inside_of self.now.bodies) ((nodes.method_part method.now).marks) roles.Evaluated place walk.old walk.new) }
    {
        let repeats = params_repeat(self.bodies.alloc, &method.params)?;
        let is_wrong = is_wrong_constructor(place.owner, &method.key, method.flow);
        walk.add(method_error(repeats, is_wrong), None)?;
        self.of_key(&method.key, place, walk)?;
        let inner = place.in_method(is_derived_constructor(place.owner, &method.key));
        let hidden = hidden(self.bodies.alloc, None)?;
        self.of_called(
            hidden,
            &method.params,
            method.flow,
            method.body,
            inner,
            walk,
        )?;
        Ok(())
    }

    /// A class in this role.
    #[cycle(walk)]
    pub fn of_class(
        &self,
        class: &Class,
        role: Role,
        place: Place,
        walk: &mut Walk,
    ) -> Result<(), AllocError>
        requires holds { Holds self.now.bodies (F.pre self.now.body) (F.post self.now.body) }
        ensures { OnOk result (Adds (inside_of self.now.bodies) ((nodes.class_part class.now).marks) role place walk.old walk.new) }
    {
        let is_wrong = is_redeclared(role, &class.name, &walk.earlier);
        walk.add(when(is_wrong, EarlyKind::Redeclared), None)?;
        let slots = slots_of_class(self.bodies.alloc, role, &class.name)?;
        self.of_class_parts(class, slots, place, walk)?;
        Ok(())
    }

    /// What a class extends and its members, in a scope of these slots.
    #[cycle(walk)]
    fn of_class_parts(
        &self,
        class: &Class,
        slots: Items<Slot>,
        place: Place,
        walk: &mut Walk,
    ) -> Result<(), AllocError>
        requires holds { Holds self.now.bodies (F.pre self.now.body) (F.post self.now.body) }
        ensures { OnOk result (Adds (inside_of self.now.bodies) (class_inner slots (nodes.mapped nodes.expr_part (out-Class class.now).parent) (map nodes.member_part_of (out-Class class.now).members)) roles.Evaluated place walk.old walk.new) }
    {
        let outer = walk.scopes.open(self.bodies.alloc, slots)?;
        self.of_optional(&class.parent, place, walk)?;
        self.of_members(
            class.members.as_slice(),
            class.parent.is_some(),
            place,
            walk,
        )?;
        walk.scopes.close(outer);
        Ok(())
    }

    /// The members of a class.
    #[cycle(walk)]
    fn of_members(
        &self,
        members: &[Member],
        has_parent: bool,
        place: Place,
        walk: &mut Walk,
    ) -> Result<(), AllocError>
        requires holds { Holds self.now.bodies (F.pre self.now.body) (F.post self.now.body) }
        ensures { OnOk result (Adds (inside_of self.now.bodies) (nodes.members_marks (map nodes.member_part_of members.now) has_parent false) roles.Evaluated place walk.old walk.new) }
    {
        let mut has_constructor = false;
        for member in members {
            self.of_member(
                member,
                place.owned_by(Owner::Class(has_parent, has_constructor)),
                walk,
            )?;
            let is_constructor = is_constructor_member(member);
            has_constructor = either(has_constructor, is_constructor);
        }
        Ok(())
    }

    /// A member of a class.
    #[cycle(walk)]
    fn of_member(&self, member: &Member, place: Place, walk: &mut Walk) -> Result<(), AllocError>
        requires holds { Holds self.now.bodies (F.pre self.now.body) (F.post self.now.body) }
        ensures { OnOk result (Adds (inside_of self.now.bodies) ((nodes.member_part_of member.now).marks) roles.Evaluated place walk.old walk.new) }
    {
        if member.is_static {
            self.of_method(&member.method, place.owned_by(Owner::Other), walk)?;
            Ok(())
        } else {
            self.of_method(&member.method, place, walk)
        }
    }
}
