//! Values that are no containers.

ghost use Rattle.std.specs.Prelude.{◌≡◌, ◌++◌, OnOk};
ghost use Rattle.actx_shown.specs.Forms as forms;

use crate::kinds::kind_word;
use crate::pushes::push_ascii;
use crate::reads::text_read;
use actx_objects::{Kind, Objects};
use actx_text::{as_units, number_text};
use actx_value::{ObjId, Texts, Value};
use std::alloc::{AllocError, Global};

/// The units of `name`.
const NAME: [u16; 4] = [110, 97, 109, 101];

/// The units of `message`.
const MESSAGE: [u16; 7] = [109, 101, 115, 115, 97, 103, 101];

/// Puts a name at the end behind a sign, where there is a name.
fn push_behind(out: &mut Vec<u16>, sign: &[u8], name: &[u16]) -> Result<(), AllocError>
    ensures { OnOk result (out.new.items ≡ out.old.items ++ forms.behind sign.now name.now) }
{
    if name.is_empty() {
        return Ok(());
    }
    push_ascii(out, sign)?;
    out.extend_from_slice(name)
}

/// Puts a word in square brackets at the end.
pub(crate) fn push_bracketed(out: &mut Vec<u16>, word: &[u8]) -> Result<(), AllocError>
    ensures { OnOk result (out.new.items ≡ out.old.items ++ forms.bracketed word.now) }
{
    push_ascii(out, b"[")?;
    push_ascii(out, word)?;
    push_ascii(out, b"]")
}

/// Puts a word with a name behind a sign in square brackets at the end.
fn push_named(out: &mut Vec<u16>, word: &[u8], sign: &[u8], name: &[u16]) -> Result<(), AllocError>
    ensures { OnOk result (out.new.items ≡ out.old.items ++ forms.bracketed (word.now ++ forms.behind sign.now name.now)) }
{
    push_ascii(out, b"[")?;
    push_ascii(out, word)?;
    push_behind(out, sign, name)?;
    push_ascii(out, b"]")
}

/// The name of a function, of a class or of an error.
pub(crate) fn name_of<'a>(texts: &'a Texts, objects: &Objects, o: ObjId) -> &'a [u16]
    ensures { result.now ≡ forms.name_of texts.now.texts objects.now o }
{
    text_read(texts, objects, o, &NAME)
}

/// Puts an error's name at the end, or `Error` where it has none.
fn push_error_name(out: &mut Vec<u16>, name: &[u16]) -> Result<(), AllocError>
    ensures { OnOk result (out.new.items ≡ out.old.items ++ forms.error_name name.now) }
{
    if name.is_empty() {
        push_ascii(out, b"Error")
    } else {
        out.extend_from_slice(name)
    }
}

/// Puts an error's name and message at the end.
fn push_error(
    out: &mut Vec<u16>,
    texts: &Texts,
    objects: &Objects,
    o: ObjId,
) -> Result<(), AllocError>
    ensures { OnOk result (out.new.items ≡ out.old.items ++ forms.error_form texts.now.texts objects.now o) }
{
    push_error_name(out, name_of(texts, objects, o))?;
    push_behind(out, b": ", text_read(texts, objects, o, &MESSAGE))
}

/// Puts an object that is no container at the end.
pub(crate) fn push_lone(
    out: &mut Vec<u16>,
    texts: &Texts,
    objects: &Objects,
    o: ObjId,
) -> Result<(), AllocError>
    ensures { OnOk result (out.new.items ≡ out.old.items ++ forms.lone_form texts.now.texts objects.now o) }
{
    let kind = objects.kind(o);
    match kind {
        Kind::Function | Kind::Native => {
            push_named(out, kind_word(kind), b": ", name_of(texts, objects, o))
        }
        Kind::Class => push_named(out, kind_word(kind), b" ", name_of(texts, objects, o)),
        Kind::Error => push_error(out, texts, objects, o),
        _ => push_bracketed(out, kind_word(kind)),
    }
}

/// Puts a value that is neither a text nor an object at the end.
pub(crate) fn push_primitive(alloc: Global, out: &mut Vec<u16>, v: Value) -> Result<(), AllocError>
    ensures { OnOk result (out.new.items ≡ out.old.items ++ forms.primitive_form v) }
{
    match v {
        Value::Undefined => push_ascii(out, b"undefined"),
        Value::Null => push_ascii(out, b"null"),
        Value::Bool(true) => push_ascii(out, b"true"),
        Value::Bool(false) => push_ascii(out, b"false"),
        Value::Num(n) => out.extend_from_slice(as_units(&number_text(alloc, n)?)),
        Value::Text(_) | Value::Object(_) | Value::Scope(_) | Value::Mark => Ok(()),
    }
}
