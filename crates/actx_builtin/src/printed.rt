//! Printed forms of what a store holds.

ghost use Rattle.std.specs.Prelude.{◌≡◌, IfOk};
ghost use Rattle.actx_shown.specs.Forms as forms;

use actx_table::Store;
use actx_text::Units;
use actx_value::Value;
use std::alloc::{AllocError, Global};

/// What `console.log` writes of an argument: a text as it is, and any other value in its printed form.
///
/// # Errors
/// Only want of memory.
pub fn shown(alloc: Global, store: &Store, v: Value) -> Result<Units, AllocError>
    ensures { IfOk result (λ text. text ≡ forms.shown store.now.texts.texts store.now.objects v) }
{
    actx_shown::shown(alloc, &store.texts, &store.objects, v)
}

/// The line that `console.log` writes of its arguments, without a line feed.
///
/// # Errors
/// Only want of memory.
pub fn line(alloc: Global, store: &Store, args: &[Value]) -> Result<Units, AllocError>
    ensures { IfOk result (λ text. text ≡ forms.line store.now.texts.texts store.now.objects args.now) }
{
    actx_shown::line(alloc, &store.texts, &store.objects, args)
}
