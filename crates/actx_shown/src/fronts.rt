//! The front of a container, and its end.

ghost use Rattle.std.specs.Prelude.{◌≡◌, ◌++◌, codes, OnOk};
ghost use Rattle.std.specs.Fmt.{decimal};
ghost use Rattle.actx_shown.specs.Forms as forms;

use crate::kinds::is_callable;
use crate::lone::name_of;
use crate::pushes::{push_ascii, push_decimal};
use crate::reads::read;
use actx_objects::{Kind, Objects};
use actx_value::{ObjId, Texts, Value};
use std::alloc::AllocError;

/// The units of `constructor`.
const CONSTRUCTOR: [u16; 11] = [99, 111, 110, 115, 116, 114, 117, 99, 116, 111, 114];

/// Whether this is the built-in function `Object`.
fn is_object_function(o: ObjId) -> bool
    ensures { result ≡ forms.is_object_function o }
{
    o.0 == 15
}

/// The name of the function or class that reading `constructor` gives, other than the function `Object`.
fn class_name<'a>(texts: &'a Texts, objects: &Objects, o: ObjId) -> &'a [u16]
    ensures { result.now ≡ forms.class_name texts.now.texts objects.now o }
{
    match read(texts, objects, o, &CONSTRUCTOR) {
        Some(Value::Object(c)) if is_callable(objects.kind(c)) && !is_object_function(c) => {
            name_of(texts, objects, c)
        }
        _ => &[],
    }
}

/// Puts a sign at the end, with a name and a space before it where there is a name.
fn push_before(out: &mut Vec<u16>, name: &[u16], sign: &[u8]) -> Result<(), AllocError>
    ensures { OnOk result (out.new.items ≡ out.old.items ++ forms.before name.now sign.now) }
{
    if !name.is_empty() {
        out.extend_from_slice(name)?;
        push_ascii(out, b" ")?;
    }
    push_ascii(out, sign)
}

/// Puts a word, a number in brackets and ` {` at the end.
fn push_sized(out: &mut Vec<u16>, word: &[u8], n: usize) -> Result<(), AllocError>
    ensures { OnOk result (out.new.items ≡ out.old.items ++ word.now ++ decimal n ++ codes ") {") }
{
    push_ascii(out, word)?;
    push_decimal(out, n)?;
    push_ascii(out, b") {")
}

/// Puts the front of a container at the end.
pub(crate) fn push_front(
    out: &mut Vec<u16>,
    texts: &Texts,
    objects: &Objects,
    o: ObjId,
    kind: Kind,
) -> Result<(), AllocError>
    ensures { OnOk result (out.new.items ≡ out.old.items ++ forms.front_in kind texts.now.texts objects.now o) }
{
    match kind {
        Kind::Array => push_ascii(out, b"["),
        Kind::Map => push_sized(out, b"Map(", objects.len(o)),
        Kind::Set => push_sized(out, b"Set(", objects.len(o)),
        _ => push_before(out, class_name(texts, objects, o), b"{"),
    }
}

/// Puts the end of a container at the end.
pub(crate) fn push_end(out: &mut Vec<u16>, kind: Kind) -> Result<(), AllocError>
    ensures { OnOk result (out.new.items ≡ out.old.items ++ forms.end_in kind) }
{
    match kind {
        Kind::Array => push_ascii(out, b"]"),
        _ => push_ascii(out, b"}"),
    }
}
