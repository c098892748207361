//! Printed forms: what `console.log` writes of a value.

ghost use Rattle.std.specs.Prelude.{◌≡◌, ◌++◌, ◌≤◌, IfOk, OnOk};
ghost use Rattle.actx_shown.specs.Forms as forms;

use crate::fronts::{push_end, push_front};
use crate::items::{Item, items_of};
use crate::kinds::{is_container, kind_word};
use crate::lone::{push_bracketed, push_lone, push_primitive};
use crate::pushes::push_ascii;
use crate::quotes::push_text;
use crate::reads::units_of;
use actx_objects::Objects;
use actx_text::{Units, as_units, from_units};
use actx_value::{ObjId, Texts, Value};
use std::alloc::{AllocError, Global};

/// How many levels of containers show what stands in them.
const LEVELS: usize = 3;

/// Puts a value at the end, with so many levels of containers.
#[cycle(forms)]
fn push_form(
    alloc: Global,
    out: &mut Vec<u16>,
    texts: &Texts,
    objects: &Objects,
    v: Value,
    levels: usize,
) -> Result<(), AllocError>
    ensures { OnOk result (out.new.items ≡ out.old.items ++ forms.form levels texts.now.texts objects.now v) }
{
    match v {
        Value::Text(t) => push_text(out, units_of(texts, t)),
        Value::Object(o) => {
            if is_container(objects.kind(o)) {
                push_container(alloc, out, texts, objects, o, levels)
            } else {
                push_lone(out, texts, objects, o)
            }
        }
        other => push_primitive(alloc, out, other),
    }
}

/// Puts a container at the end.
#[cycle(forms)]
fn push_container(
    alloc: Global,
    out: &mut Vec<u16>,
    texts: &Texts,
    objects: &Objects,
    o: ObjId,
    levels: usize,
) -> Result<(), AllocError>
    ensures { OnOk result (out.new.items ≡ out.old.items ++ forms.container_at levels texts.now.texts objects.now o) }
{
    if levels == 0 {
        push_bracketed(out, kind_word(objects.kind(o)))
    } else {
        push_opened(alloc, out, texts, objects, o, levels - 1)
    }
}

/// Puts a container at the end with what stands in it, of which so many levels are shown.
#[cycle(forms)]
fn push_opened(
    alloc: Global,
    out: &mut Vec<u16>,
    texts: &Texts,
    objects: &Objects,
    o: ObjId,
    levels: usize,
) -> Result<(), AllocError>
    ensures { OnOk result (out.new.items ≡ out.old.items ++ forms.container_form (forms.form levels texts.now.texts objects.now) texts.now.texts objects.now o) }
{
    let kind = objects.kind(o);
    let items = items_of(alloc, texts, objects, o)?;
    push_front(out, texts, objects, o, kind)?;
    push_items(alloc, out, texts, objects, &items, levels)?;
    push_end(out, kind)?;
    Ok(())
}

/// Puts the items of a container at the end, between spaces and with commas.
#[cycle(forms)]
fn push_items(
    alloc: Global,
    out: &mut Vec<u16>,
    texts: &Texts,
    objects: &Objects,
    items: &[Item],
    levels: usize,
) -> Result<(), AllocError>
    ensures { OnOk result (out.new.items ≡ out.old.items ++ forms.items_form (forms.form levels texts.now.texts objects.now) items.now) }
{
    match items.split_first() {
        Some((first, rest)) => {
            push_ascii(out, b" ")?;
            push_item(alloc, out, texts, objects, first, levels)?;
            push_further(alloc, out, texts, objects, rest, levels)?;
            push_ascii(out, b" ")
        }
        None => Ok(()),
    }
}

/// Puts items at the end, each after a comma.
#[cycle(forms)]
fn push_further(
    alloc: Global,
    out: &mut Vec<u16>,
    texts: &Texts,
    objects: &Objects,
    items: &[Item],
    levels: usize,
) -> Result<(), AllocError>
    ensures { OnOk result (out.new.items ≡ out.old.items ++ forms.further_form (forms.form levels texts.now.texts objects.now) items.now) }
{
    for item in items {
        push_ascii(out, b", ")?;
        push_item(alloc, out, texts, objects, item, levels)?;
    }
    Ok(())
}

/// Puts one item at the end.
#[cycle(forms)]
fn push_item(
    alloc: Global,
    out: &mut Vec<u16>,
    texts: &Texts,
    objects: &Objects,
    item: &Item,
    levels: usize,
) -> Result<(), AllocError>
    ensures { OnOk result (out.new.items ≡ out.old.items ++ forms.item_form (forms.form levels texts.now.texts objects.now) item.now) }
{
    out.extend_from_slice(as_units(&item.label))?;
    push_form(alloc, out, texts, objects, item.value, levels)?;
    match item.under {
        Some(v) => {
            push_ascii(out, b" => ")?;
            push_form(alloc, out, texts, objects, v, levels)
        }
        None => Ok(()),
    }
}

/// Puts what `console.log` writes of an argument at the end.
fn push_shown(
    alloc: Global,
    out: &mut Vec<u16>,
    texts: &Texts,
    objects: &Objects,
    v: Value,
) -> Result<(), AllocError>
    ensures { OnOk result (out.new.items ≡ out.old.items ++ forms.shown texts.now.texts objects.now v) }
{
    match v {
        Value::Text(t) => out.extend_from_slice(units_of(texts, t)),
        other => push_form(alloc, out, texts, objects, other, LEVELS),
    }
}

/// Puts arguments at the end, each after a space.
fn push_more(
    alloc: Global,
    out: &mut Vec<u16>,
    texts: &Texts,
    objects: &Objects,
    args: &[Value],
) -> Result<(), AllocError>
    ensures { OnOk result (out.new.items ≡ out.old.items ++ forms.more_shown texts.now.texts objects.now args.now) }
{
    for v in args {
        push_ascii(out, b" ")?;
        push_shown(alloc, out, texts, objects, *v)?;
    }
    Ok(())
}

/// Puts arguments at the end, with a space between each two.
fn push_args(
    alloc: Global,
    out: &mut Vec<u16>,
    texts: &Texts,
    objects: &Objects,
    args: &[Value],
) -> Result<(), AllocError>
    ensures { OnOk result (out.new.items ≡ out.old.items ++ forms.line texts.now.texts objects.now args.now) }
{
    match args.split_first() {
        Some((first, rest)) => {
            push_shown(alloc, out, texts, objects, *first)?;
            push_more(alloc, out, texts, objects, rest)
        }
        None => Ok(()),
    }
}

/// What `console.log` writes of an argument: a text as it is, and any other value in its printed form.
///
/// # Errors
/// Only want of memory.
pub fn shown(alloc: Global, texts: &Texts, objects: &Objects, v: Value) -> Result<Units, AllocError>
    ensures { IfOk result (λ text. text ≡ forms.shown texts.now.texts objects.now v) }
{
    let mut out = Vec::new(alloc);
    push_shown(alloc, &mut out, texts, objects, v)?;
    Ok(from_units(out))
}

/// The line that `console.log` writes of its arguments, without a line feed: each as `shown` gives it, with a space
/// between each two.
///
/// # Errors
/// Only want of memory.
pub fn line(
    alloc: Global,
    texts: &Texts,
    objects: &Objects,
    args: &[Value],
) -> Result<Units, AllocError>
    ensures { IfOk result (λ text. text ≡ forms.line texts.now.texts objects.now args.now) }
{
    let mut out = Vec::new(alloc);
    push_args(alloc, &mut out, texts, objects, args)?;
    Ok(from_units(out))
}
