//! Laws of scopes and early errors, and small files worked by hand. Each function does nothing: its
//! contract is the law.

ghost use Rattle.actx_scope_rules.specs.Laws.{ErrorsInOrder};
ghost use Rattle.actx_scope_rules.specs.Early.{early_errors, name_uses};
ghost use Rattle.actx_scope_rules.specs.Examples as example;
ghost use Rattle.actx_scope_rules.specs.declared.early.EarlyKind.TheVariants as kind;
ghost use Rattle.std.specs.Prelude.{◌≡◌, [], ◌∷◌, true, false};

/// Early errors come in the order of their nodes.
pub fn errors_in_order()
    ensures { ErrorsInOrder }
{}

/// `break`, `return` and `await` in files worked by hand.
pub fn places_of_words()
    ensures lone_break { early_errors example.lone_break ≡ record { kind = kind.BadBreak; at = 0 } ∷ [] }
    ensures in_a_loop { early_errors example.break_in_a_loop ≡ [] }
    ensures lone_return { early_errors example.lone_return ≡ record { kind = kind.BadReturn; at = 0 } ∷ [] }
    ensures lone_await { early_errors example.lone_await ≡ record { kind = kind.BadAwait; at = 1 } ∷ [] }
{}

/// Names declared and used in files worked by hand.
pub fn names_of_files()
    ensures declared_twice { early_errors example.declared_twice ≡ record { kind = kind.Redeclared; at = 1 } ∷ [] }
    ensures in_a_block { early_errors example.declared_in_a_block ≡ [] }
    ensures unknown { early_errors example.unknown_name ≡ record { kind = kind.NotDeclared; at = 1 } ∷ [] }
    ensures shorthand { early_errors example.unknown_shorthand ≡ record { kind = kind.NotDeclared; at = 3 } ∷ [] }
    ensures global { early_errors example.global_name ≡ [] }
    ensures global_use { name_uses example.global_name ≡ record { at = 1; name = record { hops = 0; slot = 1; is_global = true; is_fixed = true } } ∷ [] }
    ensures const_assigned { early_errors example.const_assigned ≡ record { kind = kind.ConstAssigned; at = 4 } ∷ [] }
    ensures parameter { early_errors example.parameter_declared ≡ record { kind = kind.Redeclared; at = 1 } ∷ [] }
    ensures parameter_use { name_uses example.parameter_declared ≡ record { at = 3; name = record { hops = 0; slot = 0; is_global = false; is_fixed = false } } ∷ [] }
{}

/// `delete`, a key and a class in files worked by hand.
pub fn forms_of_files()
    ensures deleted { early_errors example.name_deleted ≡ record { kind = kind.BadDelete; at = 1 } ∷ record { kind = kind.NotDeclared; at = 2 } ∷ [] }
    ensures proto { early_errors example.proto_key ≡ record { kind = kind.BadKey; at = 2 } ∷ [] }
    ensures constructors { early_errors example.two_constructors ≡ record { kind = kind.TwoConstructors; at = 2 } ∷ [] }
{}
