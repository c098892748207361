//! Early errors that a part of a tree shows by itself: `delete` of what isn't a member, a key
//! `__proto__`, and constructors of classes.

ghost use Rattle.actx_scope_rules.specs.Nodes as nodes;
ghost use Rattle.actx_scope_rules.specs.Conditions as condition;
ghost use Rattle.actx_scope_rules.specs.Words.{is_word, constructor_word, proto_word};
ghost use Rattle.actx_scope_rules.specs.declared.early.EarlyKind.TheVariants as kind;
ghost use Rattle.std.specs.Prelude.{◌≡◌, ◌++◌, ◌||◌, map, false};

use crate::early::EarlyKind;
use crate::place::{Owner, Place, Role};
use crate::slot::Found;
use crate::words::{is_constructor, is_proto};
use actx_tree::{Entry, Expr, Flow, Key, Member, Suffix, UnaryOp};

/// Whether an expression is a member, as `a.b` or `a[b]`, which `delete` asks for
/// (ECMA-262 §13.5.1.1). A member in brackets is none.
pub fn is_member(x: &Expr) -> bool
    ensures { result ≡ (nodes.expr_part x.now).is_member }
{
    match x {
        Expr::Left(_, suffixes) => ends_in_member(suffixes.as_slice()),
        Expr::Name(_) => false,
        Expr::Number(_) => false,
        Expr::Text(_) => false,
        Expr::Bool(_) => false,
        Expr::Null => false,
        Expr::This => false,
        Expr::Template(_, _) => false,
        Expr::Brackets(_) => false,
        Expr::Array(_) => false,
        Expr::Object(_) => false,
        Expr::SuperCall(_) => false,
        Expr::SuperMember(_) => false,
        Expr::Function(_) => false,
        Expr::Class(_) => false,
        Expr::New(_, _, _) => false,
        Expr::StepBefore(_, _) => false,
        Expr::StepAfter(_, _) => false,
        Expr::Unary(_, _) => false,
        Expr::Chain(_, _) => false,
        Expr::Conditional(_, _, _) => false,
        Expr::Assign(_, _, _) => false,
        Expr::Yield(_) => false,
        Expr::Arrow(_, _, _) => false,
        Expr::ArrowBlock(_, _, _) => false,
        Expr::Comma(_, _) => false,
    }
}

/// Whether a chain of suffixes ends with a member.
fn ends_in_member(suffixes: &[Suffix]) -> bool
    ensures { result ≡ nodes.last_is_member false (map nodes.suffix_part suffixes.now) }
{
    let mut last = false;
    for suffix in suffixes {
        last = is_member_suffix(suffix);
    }
    last
}

fn is_member_suffix(suffix: &Suffix) -> bool
    ensures { result ≡ (nodes.suffix_part suffix.now).is_member }
{
    match suffix {
        Suffix::Member(_, _) => true,
        Suffix::Index(_, _) => true,
        Suffix::Call(_, _) => false,
    }
}

/// Whether a key is the word or the text `__proto__` (ECMA-262 §B.3.1).
fn is_proto_key(key: &Key) -> bool
    ensures { result ≡ is_word proto_word (nodes.key_part key.now).word }
{
    match key {
        Key::Word(word) => is_proto(word),
        Key::Text(word) => is_proto(word),
        Key::Number(_) => false,
        Key::Computed(_) => false,
    }
}

/// Whether a key is the word or the text `constructor` (ECMA-262 §15.7.1).
pub fn is_constructor_key(key: &Key) -> bool
    ensures { result ≡ is_word constructor_word (nodes.key_part key.now).word }
{
    match key {
        Key::Word(word) => is_constructor(word),
        Key::Text(word) => is_constructor(word),
        Key::Number(_) => false,
        Key::Computed(_) => false,
    }
}

/// Whether an entry of an object is a value under the key `__proto__`.
fn is_proto_entry(entry: &Entry) -> bool
    ensures { result ≡ is_word proto_word (nodes.entry_part entry.now).word }
{
    match entry {
        Entry::Pair(key, _) => is_proto_key(key),
        Entry::Spread(_) => false,
        Entry::Shorthand(_) => false,
        Entry::Method(_) => false,
    }
}

/// Whether an object has a value under the key `__proto__`.
pub fn has_bad_key(entries: &[Entry]) -> bool
    ensures { result ≡ condition.has_bad_key (map nodes.word_of (map nodes.entry_part entries.now)) }
{
    for entry in entries {
        if is_proto_entry(entry) {
            return true;
        }
    }
    false
}

/// The error of a kind, if its condition holds.
pub fn when(holds: bool, kind: EarlyKind) -> Option<EarlyKind>
    ensures { result ≡ condition.first (condition.when holds kind) }
{
    if holds { Some(kind) } else { None }
}

/// The error of an operator before an operand that is a member or not: BadDelete or BadAwait.
pub fn unary_error(op: UnaryOp, is_member: bool, place: Place) -> Option<EarlyKind>
    ensures { result ≡ condition.first (nodes.unary_errors op is_member place) }
{
    match op {
        UnaryOp::Delete => when(!is_member, EarlyKind::BadDelete),
        UnaryOp::Await => when(!place.can_await, EarlyKind::BadAwait),
        UnaryOp::Not => None,
        UnaryOp::Minus => None,
        UnaryOp::Plus => None,
        UnaryOp::TypeOf => None,
        UnaryOp::Void => None,
    }
}

/// Whether a method is a constructor of a class behind another one, or one that is async or a generator.
pub fn is_wrong_constructor(owner: Owner, key: &Key, flow: Flow) -> bool
    ensures { result ≡ condition.is_wrong_constructor owner (nodes.key_part key.now).word flow }
{
    match owner {
        Owner::Class(_, has_constructor) => {
            is_constructor_key(key) && (has_constructor || !is_plain(flow))
        }
        Owner::Other => false,
    }
}

fn is_plain(flow: Flow) -> bool
    ensures { result ≡ condition.is_plain flow }
{
    match flow {
        Flow::Plain => true,
        Flow::Async => false,
        Flow::Generator => false,
    }
}

/// Whether a member of a class is its constructor.
pub fn is_constructor_member(member: &Member) -> bool
    ensures { result ≡ nodes.is_constructor (nodes.member_part_of member.now) }
{
    !member.is_static && is_constructor_key(&member.method.key)
}

/// Whether a method is the constructor of a class with `extends`.
pub fn is_derived_constructor(owner: Owner, key: &Key) -> bool
    ensures { result ≡ condition.is_derived_constructor owner (nodes.key_part key.now).word }
{
    match owner {
        Owner::Class(has_parent, _) => has_parent && is_constructor_key(key),
        Owner::Other => false,
    }
}

/// Whether one of two is so.
pub fn either(one: bool, other: bool) -> bool
    ensures { result ≡ (one || other) }
{
    one || other
}

/// How the body of an arrow runs.
pub fn arrow_flow_of(is_async: bool) -> Flow
    ensures { result ≡ nodes.arrow_flow is_async }
{
    if is_async { Flow::Async } else { Flow::Plain }
}

/// The error of the use of a name in this role that means this.
pub fn name_error(role: Role, found: Option<Found>) -> Option<EarlyKind>
    ensures { result ≡ condition.first (condition.when (condition.is_not_declared found) kind.NotDeclared ++ condition.when (condition.is_const_assigned role found) kind.ConstAssigned) }
{
    match found {
        None => Some(EarlyKind::NotDeclared),
        Some(found) => match role {
            Role::Assigned => when(found.is_fixed, EarlyKind::ConstAssigned),
            Role::Evaluated => None,
            Role::Declared => None,
        },
    }
}

/// The first error of a method.
pub fn method_error(repeats: bool, is_wrong: bool) -> Option<EarlyKind>
    ensures { result ≡ condition.first (condition.when repeats kind.Redeclared ++ condition.when is_wrong kind.TwoConstructors) }
{
    if repeats {
        Some(EarlyKind::Redeclared)
    } else {
        when(is_wrong, EarlyKind::TwoConstructors)
    }
}
