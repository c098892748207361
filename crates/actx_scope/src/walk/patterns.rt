//! Patterns and parameters.

ghost use Rattle.actx_scope.specs.Holds.{Holds, inside_of};
ghost use Rattle.actx_scope_rules.specs.Nodes as nodes;
ghost use Rattle.actx_scope.specs.Walks.{Adds, Binds};
ghost use Rattle.actx_scope_rules.specs.declared.place.Role.TheVariants as roles;
ghost use Rattle.std.specs.Prelude.{◌≡◌, ◌++◌, map, OnOk};

use crate::bodies::Bodies;
use crate::repeats::{elems_repeat, pass_elem, pass_prop, props_repeat};
use crate::walk::{Inner, Walk};
use actx_scope_rules::{EarlyKind, Place, when};
use actx_text::Units;
use actx_tree::{Elem, Params, Prop, Target, Unread};
use sqlite_items::Boxed;
use std::alloc::AllocError;

impl<F: Fn(Bodies<'_>, Unread, Place, &mut Walk) -> Result<(), AllocError>> Inner<'_, F> {
    /// What a declaration binds, as a node.
    pub fn of_declared(
        &self,
        elems: &[Elem],
        place: Place,
        walk: &mut Walk,
    ) -> Result<(), AllocError>
        requires holds { Holds self.now.bodies (F.pre self.now.body) (F.post self.now.body) }
        ensures { OnOk result (Adds (inside_of self.now.bodies) (nodes.binding_node (map nodes.elem_part elems.now)) roles.Evaluated place walk.old walk.new) }
    {
        let repeats = elems_repeat(self.bodies.alloc, elems, &None, &mut walk.earlier)?;
        walk.add(when(repeats, EarlyKind::Redeclared), None)?;
        let start = walk.earlier.len();
        self.of_elems(elems, place, walk)?;
        walk.earlier.back_to(start);
        Ok(())
    }

    /// A target.
    #[cycle(walk)]
    pub fn of_target(
        &self,
        target: &Target,
        place: Place,
        walk: &mut Walk,
    ) -> Result<(), AllocError>
        requires holds { Holds self.now.bodies (F.pre self.now.body) (F.post self.now.body) }
        ensures { OnOk result (Adds (inside_of self.now.bodies) ((nodes.target_part target.now).marks) roles.Evaluated place walk.old walk.new) }
    {
        match target {
            Target::Name(_) => Ok(()),
            Target::Object(props, rest) => self.of_object(props.as_slice(), rest, place, walk),
            Target::Array(elems, rest) => self.of_array(elems.as_slice(), rest, place, walk),
        }
    }

    /// An object pattern.
    #[cycle(walk)]
    fn of_object(
        &self,
        props: &[Prop],
        rest: &Option<Units>,
        place: Place,
        walk: &mut Walk,
    ) -> Result<(), AllocError>
        requires holds { Holds self.now.bodies (F.pre self.now.body) (F.post self.now.body) }
        ensures { OnOk result (Adds (inside_of self.now.bodies) (nodes.binding_node (map nodes.prop_part props.now ++ nodes.rest_names rest.now)) roles.Evaluated place walk.old walk.new) }
    {
        let repeats = props_repeat(self.bodies.alloc, props, rest, &mut walk.earlier)?;
        walk.add(when(repeats, EarlyKind::Redeclared), None)?;
        let start = walk.earlier.len();
        self.of_props(props, place, walk)?;
        walk.earlier.back_to(start);
        Ok(())
    }

    /// An array pattern.
    #[cycle(walk)]
    fn of_array(
        &self,
        elems: &[Elem],
        rest: &Option<Units>,
        place: Place,
        walk: &mut Walk,
    ) -> Result<(), AllocError>
        requires holds { Holds self.now.bodies (F.pre self.now.body) (F.post self.now.body) }
        ensures { OnOk result (Adds (inside_of self.now.bodies) (nodes.binding_node (map nodes.elem_part elems.now ++ nodes.rest_names rest.now)) roles.Evaluated place walk.old walk.new) }
    {
        let repeats = elems_repeat(self.bodies.alloc, elems, rest, &mut walk.earlier)?;
        walk.add(when(repeats, EarlyKind::Redeclared), None)?;
        let start = walk.earlier.len();
        self.of_elems(elems, place, walk)?;
        walk.earlier.back_to(start);
        Ok(())
    }

    /// The properties of an object pattern.
    #[cycle(walk)]
    pub fn of_props(&self, props: &[Prop], place: Place, walk: &mut Walk) -> Result<(), AllocError>
        requires holds { Holds self.now.bodies (F.pre self.now.body) (F.post self.now.body) }
        ensures { OnOk result (Binds (inside_of self.now.bodies) (nodes.binding (map nodes.prop_part props.now)) (nodes.all_names (map nodes.prop_part props.now)) roles.Evaluated place walk.old walk.new) }
    {
        for prop in props {
            self.of_prop(prop, place, walk)?;
            pass_prop(self.bodies.alloc, prop, &mut walk.earlier)?;
        }
        Ok(())
    }

    /// A property of an object pattern.
    #[cycle(walk)]
    fn of_prop(&self, prop: &Prop, place: Place, walk: &mut Walk) -> Result<(), AllocError>
        requires holds { Holds self.now.bodies (F.pre self.now.body) (F.post self.now.body) }
        ensures { OnOk result (Adds (inside_of self.now.bodies) ((nodes.prop_part prop.now).marks) roles.Evaluated place walk.old walk.new) }
    {
        match prop {
            Prop::Shorthand(_, default) => self.of_optional(default, place, walk),
            Prop::Pair(key, elem) => {
                self.of_key(key, place, walk)?;
                self.of_elem(elem, place, walk)?;
                Ok(())
            }
        }
    }

    /// What elements bind.
    #[cycle(walk)]
    pub fn of_elems(&self, elems: &[Elem], place: Place, walk: &mut Walk) -> Result<(), AllocError>
        requires holds { Holds self.now.bodies (F.pre self.now.body) (F.post self.now.body) }
        ensures { OnOk result (Binds (inside_of self.now.bodies) (nodes.binding (map nodes.elem_part elems.now)) (nodes.all_names (map nodes.elem_part elems.now)) roles.Evaluated place walk.old walk.new) }
    {
        for elem in elems {
            self.of_elem(elem, place, walk)?;
            pass_elem(self.bodies.alloc, elem, &mut walk.earlier)?;
        }
        Ok(())
    }

    /// A target and its default.
    #[cycle(walk)]
    fn of_elem(&self, elem: &Elem, place: Place, walk: &mut Walk) -> Result<(), AllocError>
        requires holds { Holds self.now.bodies (F.pre self.now.body) (F.post self.now.body) }
        ensures { OnOk result (Adds (inside_of self.now.bodies) ((nodes.elem_part elem.now).marks) roles.Evaluated place walk.old walk.new) }
    {
        self.of_target(&elem.target, place, walk)?;
        self.of_optional(&elem.default, place, walk)?;
        Ok(())
    }

    /// Parameters.
    #[cycle(walk)]
    pub fn of_params(
        &self,
        params: &Params,
        place: Place,
        walk: &mut Walk,
    ) -> Result<(), AllocError>
        requires holds { Holds self.now.bodies (F.pre self.now.body) (F.post self.now.body) }
        ensures { OnOk result (Adds (inside_of self.now.bodies) ((nodes.params_part params.now).marks) roles.Evaluated place walk.old walk.new) }
    {
        let start = walk.earlier.len();
        self.of_elems(params.elems.as_slice(), place, walk)?;
        self.of_rest(&params.rest, place, walk)?;
        walk.earlier.back_to(start);
        Ok(())
    }

    /// The target after `...`, if there is one.
    #[cycle(walk)]
    fn of_rest(
        &self,
        rest: &Option<Boxed<Target>>,
        place: Place,
        walk: &mut Walk,
    ) -> Result<(), AllocError>
        requires holds { Holds self.now.bodies (F.pre self.now.body) (F.post self.now.body) }
        ensures { OnOk result (Adds (inside_of self.now.bodies) (nodes.or_none (nodes.mapped nodes.target_part rest.now)) roles.Evaluated place walk.old walk.new) }
    {
        match rest {
            Some(target) => self.of_target(target.get(), place, walk),
            None => Ok(()),
        }
    }
}
