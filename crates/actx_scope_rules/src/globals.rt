//! The global names.

ghost use Rattle.actx_scope_rules.specs.Scopes.{last_slot, global_slots};
ghost use Rattle.actx_scope_rules.specs.WordSlots.{word_slots};
ghost use Rattle.actx_scope_rules.specs.Words.{same_units};
ghost use Rattle.std.specs.Prelude.{◌≡◌};

use crate::table::here_or;
use actx_text::{Units, as_units};

/// The global names, in the order of their slots.
const GLOBAL_NAMES: [&[u8]; 29] = [
    b"undefined",
    b"console",
    b"host",
    b"process",
    b"require",
    b"setTimeout",
    b"setInterval",
    b"setImmediate",
    b"clearTimeout",
    b"clearInterval",
    b"clearImmediate",
    b"queueMicrotask",
    b"Object",
    b"Array",
    b"String",
    b"Number",
    b"Boolean",
    b"Math",
    b"Error",
    b"TypeError",
    b"RangeError",
    b"ReferenceError",
    b"AggregateError",
    b"Map",
    b"Set",
    b"Promise",
    b"AsyncContext",
    b"AsyncLocalStorage",
    b"AsyncResource",
];

/// Whether a name is these bytes.
#[tactic(auto, unfolding(crate::specs::Words::same_units))]
fn is_word(name: &[u16], word: &[u8]) -> bool
    ensures { result ≡ same_units name.now word.now }
{
    let mut left = name;
    let mut sought = word;
    loop {
        match left {
            [] => return sought.is_empty(),
            [unit, rest @ ..] => match sought {
                [] => return false,
                [byte, more @ ..] => {
                    if *unit != *byte as u16 {
                        return false;
                    }
                    left = rest;
                    sought = more;
                }
            },
        }
    }
}

/// The last place of a name among these words, which are fixed.
fn last_word(name: &[u16], words: &[&[u8]]) -> Option<(usize, bool)>
    ensures { result ≡ last_slot name.now (word_slots words.now) 0 }
{
    let mut last = None;
    for (i, word) in words.iter().enumerate() {
        last = here_or(is_word(name, word), i, true, last);
    }
    last
}

/// The slot of a global name, which is fixed.
pub fn global_slot(name: &Units) -> Option<(usize, bool)>
    ensures { result ≡ last_slot name.now global_slots 0 }
{
    last_word(as_units(name), GLOBAL_NAMES.as_slice())
}
