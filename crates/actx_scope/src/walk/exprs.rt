//! Expressions.

ghost use Rattle.actx_scope.specs.Holds.{Holds, inside_of};
ghost use Rattle.actx_scope_rules.specs.Nodes as nodes;
ghost use Rattle.actx_scope.specs.Walks.{Adds};
ghost use Rattle.actx_scope_rules.specs.declared.place.Role.TheVariants as roles;
ghost use Rattle.std.specs.Prelude.{◌≡◌, map, OnOk};

use crate::bodies::Bodies;
use crate::walk::{Inner, Walk};
use actx_scope_rules::{
    EarlyKind, Owner, Place, Role, arrow_flow_of, has_bad_key, is_member, unary_error, when,
};
use actx_tree::{Argument, Entry, Expr, Key, Operand, Piece, Suffix, Unread};
use sqlite_items::{Boxed, Items};
use std::alloc::AllocError;

impl<F: Fn(Bodies<'_>, Unread, Place, &mut Walk) -> Result<(), AllocError>> Inner<'_, F> {
    /// An expression in this role.
    #[cycle(walk)]
    pub fn of_expr(
        &self,
        tree: &Expr,
        role: Role,
        place: Place,
        walk: &mut Walk,
    ) -> Result<(), AllocError>
        requires holds { Holds self.now.bodies (F.pre self.now.body) (F.post self.now.body) }
        ensures { OnOk result (Adds (inside_of self.now.bodies) ((nodes.expr_part tree.now).marks) role place walk.old walk.new) }
    {
        match tree {
            Expr::Name(name) => self.of_name(name, role, place, walk),
            Expr::Number(_) => walk.add(None, None),
            Expr::Text(_) => walk.add(None, None),
            Expr::Bool(_) => walk.add(None, None),
            Expr::Null => walk.add(None, None),
            Expr::This => walk.add(None, None),
            Expr::Template(_, pieces) => {
                walk.add(None, None)?;
                self.of_pieces(pieces.as_slice(), place, walk)?;
                Ok(())
            }
            Expr::Brackets(x) => {
                walk.add(None, None)?;
                self.of_expr(x.get(), Role::Evaluated, place, walk)?;
                Ok(())
            }
            Expr::Array(arguments) => {
                walk.add(None, None)?;
                self.of_arguments(arguments.as_slice(), place, walk)?;
                Ok(())
            }
            Expr::Object(entries) => {
                let error = when(has_bad_key(entries.as_slice()), EarlyKind::BadKey);
                walk.add(error, None)?;
                self.of_entries(entries.as_slice(), place, walk)?;
                Ok(())
            }
            Expr::SuperCall(arguments) => {
                walk.add(when(!place.can_super_call, EarlyKind::BadSuper), None)?;
                self.of_arguments(arguments.as_slice(), place, walk)?;
                Ok(())
            }
            Expr::SuperMember(_) => {
                walk.add(when(!place.can_super_member, EarlyKind::BadSuper), None)?;
                Ok(())
            }
            Expr::Function(function) => self.of_function(function, role, place, walk),
            Expr::Class(class) => self.of_class(class, role, place, walk),
            Expr::New(x, suffixes, arguments) => {
                walk.add(None, None)?;
                self.of_expr(x.get(), Role::Evaluated, place, walk)?;
                self.of_suffixes(suffixes.as_slice(), place, walk)?;
                match arguments {
                    Some(arguments) => {
                        self.of_arguments(arguments.as_slice(), place, walk)?;
                        Ok(())
                    }
                    None => Ok(()),
                }
            }
            Expr::Left(x, suffixes) => {
                walk.add(None, None)?;
                self.of_expr(x.get(), Role::Evaluated, place, walk)?;
                self.of_suffixes(suffixes.as_slice(), place, walk)?;
                Ok(())
            }
            Expr::StepBefore(_, x) => {
                walk.add(None, None)?;
                self.of_expr(x.get(), Role::Assigned, place, walk)?;
                Ok(())
            }
            Expr::StepAfter(x, _) => {
                walk.add(None, None)?;
                self.of_expr(x.get(), Role::Assigned, place, walk)?;
                Ok(())
            }
            Expr::Unary(op, x) => {
                walk.add(unary_error(*op, is_member(x.get()), place), None)?;
                self.of_expr(x.get(), Role::Evaluated, place, walk)?;
                Ok(())
            }
            Expr::Chain(x, operands) => {
                walk.add(None, None)?;
                self.of_expr(x.get(), Role::Evaluated, place, walk)?;
                self.of_operands(operands.as_slice(), place, walk)?;
                Ok(())
            }
            Expr::Conditional(test, first, other) => {
                walk.add(None, None)?;
                self.of_expr(test.get(), Role::Evaluated, place, walk)?;
                self.of_expr(first.get(), Role::Evaluated, place, walk)?;
                self.of_expr(other.get(), Role::Evaluated, place, walk)?;
                Ok(())
            }
            Expr::Assign(target, _, x) => {
                walk.add(None, None)?;
                self.of_expr(target.get(), Role::Assigned, place, walk)?;
                self.of_expr(x.get(), Role::Evaluated, place, walk)?;
                Ok(())
            }
            Expr::Yield(x) => {
                walk.add(when(!place.can_yield, EarlyKind::BadYield), None)?;
                self.of_optional(x, place, walk)?;
                Ok(())
            }
            Expr::Arrow(is_async, params, x) => {
                let outer = self.of_arrow_head(params, place.in_arrow(), walk)?;
                let inner = place.in_arrow().in_body(arrow_flow_of(*is_async));
                self.of_arrow_value(x.get(), params, outer, inner, walk)?;
                Ok(())
            }
            Expr::ArrowBlock(is_async, params, body) => {
                self.of_arrow_block(*is_async, params, *body, place, walk)
            }
            Expr::Comma(x, xs) => {
                walk.add(None, None)?;
                self.of_expr(x.get(), Role::Evaluated, place, walk)?;
                self.of_exprs(xs.as_slice(), place, walk)?;
                Ok(())
            }
        }
    }

    /// An expression that may be left out.
    #[cycle(walk)]
    pub fn of_optional(
        &self,
        part: &Option<Boxed<Expr>>,
        place: Place,
        walk: &mut Walk,
    ) -> Result<(), AllocError>
        requires holds { Holds self.now.bodies (F.pre self.now.body) (F.post self.now.body) }
        ensures { OnOk result (Adds (inside_of self.now.bodies) (nodes.or_none (nodes.mapped nodes.expr_part part.now)) roles.Evaluated place walk.old walk.new) }
    {
        match part {
            Some(x) => self.of_expr(x.get(), Role::Evaluated, place, walk),
            None => Ok(()),
        }
    }

    /// Expressions in a row.
    #[cycle(walk)]
    fn of_exprs(&self, trees: &[Expr], place: Place, walk: &mut Walk) -> Result<(), AllocError>
        requires holds { Holds self.now.bodies (F.pre self.now.body) (F.post self.now.body) }
        ensures { OnOk result (Adds (inside_of self.now.bodies) (nodes.all (map nodes.expr_part trees.now)) roles.Evaluated place walk.old walk.new) }
    {
        for tree in trees {
            self.of_expr(tree, Role::Evaluated, place, walk)?;
        }
        Ok(())
    }

    /// The values of a template.
    #[cycle(walk)]
    fn of_pieces(&self, pieces: &[Piece], place: Place, walk: &mut Walk) -> Result<(), AllocError>
        requires holds { Holds self.now.bodies (F.pre self.now.body) (F.post self.now.body) }
        ensures { OnOk result (Adds (inside_of self.now.bodies) (nodes.all (map nodes.piece_part pieces.now)) roles.Evaluated place walk.old walk.new) }
    {
        for piece in pieces {
            self.of_piece(piece, place, walk)?;
        }
        Ok(())
    }

    /// A value of a template.
    #[cycle(walk)]
    fn of_piece(&self, piece: &Piece, place: Place, walk: &mut Walk) -> Result<(), AllocError>
        requires holds { Holds self.now.bodies (F.pre self.now.body) (F.post self.now.body) }
        ensures { OnOk result (Adds (inside_of self.now.bodies) ((nodes.piece_part piece.now).marks) roles.Evaluated place walk.old walk.new) }
    {
        self.of_expr(&piece.value, Role::Evaluated, place, walk)
    }

    /// The operands of a chain.
    #[cycle(walk)]
    fn of_operands(
        &self,
        operands: &[Operand],
        place: Place,
        walk: &mut Walk,
    ) -> Result<(), AllocError>
        requires holds { Holds self.now.bodies (F.pre self.now.body) (F.post self.now.body) }
        ensures { OnOk result (Adds (inside_of self.now.bodies) (nodes.all (map nodes.operand_part operands.now)) roles.Evaluated place walk.old walk.new) }
    {
        for operand in operands {
            self.of_operand(operand, place, walk)?;
        }
        Ok(())
    }

    /// An operand of a chain.
    #[cycle(walk)]
    fn of_operand(&self, operand: &Operand, place: Place, walk: &mut Walk) -> Result<(), AllocError>
        requires holds { Holds self.now.bodies (F.pre self.now.body) (F.post self.now.body) }
        ensures { OnOk result (Adds (inside_of self.now.bodies) ((nodes.operand_part operand.now).marks) roles.Evaluated place walk.old walk.new) }
    {
        self.of_expr(&operand.right, Role::Evaluated, place, walk)
    }

    /// Arguments, or elements of an array.
    #[cycle(walk)]
    fn of_arguments(
        &self,
        arguments: &[Argument],
        place: Place,
        walk: &mut Walk,
    ) -> Result<(), AllocError>
        requires holds { Holds self.now.bodies (F.pre self.now.body) (F.post self.now.body) }
        ensures { OnOk result (Adds (inside_of self.now.bodies) (nodes.all (map nodes.argument_part arguments.now)) roles.Evaluated place walk.old walk.new) }
    {
        for argument in arguments {
            self.of_argument(argument, place, walk)?;
        }
        Ok(())
    }

    /// An argument.
    #[cycle(walk)]
    fn of_argument(
        &self,
        argument: &Argument,
        place: Place,
        walk: &mut Walk,
    ) -> Result<(), AllocError>
        requires holds { Holds self.now.bodies (F.pre self.now.body) (F.post self.now.body) }
        ensures { OnOk result (Adds (inside_of self.now.bodies) ((nodes.argument_part argument.now).marks) roles.Evaluated place walk.old walk.new) }
    {
        match argument {
            Argument::One(x) => self.of_expr(x, Role::Evaluated, place, walk),
            Argument::Spread(x) => self.of_expr(x, Role::Evaluated, place, walk),
        }
    }

    /// The entries of an object.
    #[cycle(walk)]
    fn of_entries(&self, entries: &[Entry], place: Place, walk: &mut Walk) -> Result<(), AllocError>
        requires holds { Holds self.now.bodies (F.pre self.now.body) (F.post self.now.body) }
        ensures { OnOk result (Adds (inside_of self.now.bodies) (nodes.all (map nodes.entry_part entries.now)) roles.Evaluated place walk.old walk.new) }
    {
        for entry in entries {
            self.of_entry(entry, place, walk)?;
        }
        Ok(())
    }

    /// An entry of an object.
    #[cycle(walk)]
    fn of_entry(&self, entry: &Entry, place: Place, walk: &mut Walk) -> Result<(), AllocError>
        requires holds { Holds self.now.bodies (F.pre self.now.body) (F.post self.now.body) }
        ensures { OnOk result (Adds (inside_of self.now.bodies) ((nodes.entry_part entry.now).marks) roles.Evaluated place walk.old walk.new) }
    {
        match entry {
            Entry::Spread(x) => self.of_expr(x, Role::Evaluated, place, walk),
            Entry::Shorthand(name) => self.of_name(name, Role::Evaluated, place, walk),
            Entry::Pair(key, x) => {
                self.of_key(key, place, walk)?;
                self.of_expr(x, Role::Evaluated, place, walk)?;
                Ok(())
            }
            Entry::Method(method) => {
                self.of_method(method, place.owned_by(Owner::Other), walk)?;
                Ok(())
            }
        }
    }

    /// A key.
    #[cycle(walk)]
    pub fn of_key(&self, key: &Key, place: Place, walk: &mut Walk) -> Result<(), AllocError>
        requires holds { Holds self.now.bodies (F.pre self.now.body) (F.post self.now.body) }
        ensures { OnOk result (Adds (inside_of self.now.bodies) ((nodes.key_part key.now).marks) roles.Evaluated place walk.old walk.new) }
    {
        match key {
            Key::Word(_) => Ok(()),
            Key::Text(_) => Ok(()),
            Key::Number(_) => Ok(()),
            Key::Computed(x) => self.of_expr(x.get(), Role::Evaluated, place, walk),
        }
    }

    /// Suffixes.
    #[cycle(walk)]
    fn of_suffixes(
        &self,
        suffixes: &[Suffix],
        place: Place,
        walk: &mut Walk,
    ) -> Result<(), AllocError>
        requires holds { Holds self.now.bodies (F.pre self.now.body) (F.post self.now.body) }
        ensures { OnOk result (Adds (inside_of self.now.bodies) (nodes.all (map nodes.suffix_part suffixes.now)) roles.Evaluated place walk.old walk.new) }
    {
        for suffix in suffixes {
            self.of_suffix(suffix, place, walk)?;
        }
        Ok(())
    }

    /// A suffix.
    #[cycle(walk)]
    fn of_suffix(&self, suffix: &Suffix, place: Place, walk: &mut Walk) -> Result<(), AllocError>
        requires holds { Holds self.now.bodies (F.pre self.now.body) (F.post self.now.body) }
        ensures { OnOk result (Adds (inside_of self.now.bodies) ((nodes.suffix_part suffix.now).marks) roles.Evaluated place walk.old walk.new) }
    {
        match suffix {
            Suffix::Member(_, _) => Ok(()),
            Suffix::Index(_, x) => self.of_expr(x, Role::Evaluated, place, walk),
            Suffix::Call(_, arguments) => self.of_arguments(arguments.as_slice(), place, walk),
        }
    }
}
