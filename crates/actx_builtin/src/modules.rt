//! What `require` gives.

ghost use Rattle.std.specs.Prelude.{◌≡◌, drop};
ghost use Rattle.actx_value.specs.Texts.{texts_eq};
ghost use Rattle.actx_builtin.specs.Modules.{bare, found, module_of};

use actx_value::ObjId;

/// The units of `node:`.
const NODE: [u16; 5] = [0x6E, 0x6F, 0x64, 0x65, 0x3A];

/// The units of `async_hooks`.
const ASYNC_HOOKS: [u16; 11] = [
    0x61, 0x73, 0x79, 0x6E, 0x63, 0x5F, 0x68, 0x6F, 0x6F, 0x6B, 0x73,
];

/// The units of `events`.
const EVENTS: [u16; 6] = [0x65, 0x76, 0x65, 0x6E, 0x74, 0x73];

/// The units of `timers`.
const TIMERS: [u16; 6] = [0x74, 0x69, 0x6D, 0x65, 0x72, 0x73];

/// The units of `timers/promises`.
const TIMERS_PROMISES: [u16; 15] = [
    0x74, 0x69, 0x6D, 0x65, 0x72, 0x73, 0x2F, 0x70, 0x72, 0x6F, 0x6D, 0x69, 0x73, 0x65, 0x73,
];

/// Whether a name is this word.
fn is_word(name: &[u16], word: &[u16]) -> bool
    ensures { result ≡ texts_eq name.now word.now }
{
    name == word
}

/// A name without `node:` before it.
fn bare(name: &[u16]) -> &[u16]
    ensures { result.now ≡ bare name.now }
{
    if name.len() >= 5 && is_word(&name[..5], &NODE) {
        &name[5..]
    } else {
        name
    }
}

/// The object of a module by its bare name.
fn found(name: &[u16]) -> Option<ObjId>
    ensures { result ≡ found name.now }
{
    if is_word(name, &ASYNC_HOOKS) {
        Some(ObjId(143))
    } else if is_word(name, &EVENTS) {
        Some(ObjId(151))
    } else if is_word(name, &TIMERS) {
        Some(ObjId(157))
    } else if is_word(name, &TIMERS_PROMISES) {
        Some(ObjId(158))
    } else {
        None
    }
}

/// The built-in object that `require` gives for a name, and `None` exactly where there is no module of this name.
pub fn module(name: &[u16]) -> Option<ObjId>
    ensures { result ≡ module_of name.now }
{
    found(bare(name))
}
