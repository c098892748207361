//! The opening store.

ghost use Rattle.std.specs.Prelude.{◌≡◌, ◌<◌, ◌+◌, length, IfOk, OnOk};
ghost use Rattle.actx_objects.specs.Objects.{property_count};
ghost use Rattle.actx_opening.specs.Opening.{frozen_to, filled, objects_in, unbounded, raised, opening_objects, text_store};

use crate::held::HELD;
use crate::member::put_all;
use crate::named::NAMED;
use crate::start::{give_protos, make_all};
use crate::starts::STARTS;
use crate::texts::{Worded, opening_texts, opening_units};
use actx_code::Code;
use actx_objects::Objects;
use actx_table::{Store, built_ins};
use actx_value::{Limits, ObjId, Texts};
use std::alloc::{AllocError, Global};

/// The greatest limit that texts and objects take.
pub(crate) const MOST: u64 = 2_147_483_647;

/// Freezes the objects below a number.
#[tactic(auto, using(crate::proofs::Freezes::none_frozen, crate::proofs::Freezes::one_frozen))]
fn freeze_to(objects: &mut Objects, n: u32)
    ensures { objects.new ≡ frozen_to n objects.old }
{
    for o in 0..n {
        objects.freeze(ObjId(o));
    }
}

/// Makes the built-in objects, and gives them their properties.
fn fill(objects: &mut Objects, texts: &Texts, first: u32) -> Result<(), AllocError>
    ensures { OnOk result (objects.new ≡ filled texts.now.texts first objects.old) }
{
    make_all(objects, &STARTS)?;
    give_protos(objects, &STARTS);
    put_all(objects, texts, first, &HELD)?;
    put_all(objects, texts, first, &NAMED)
}

/// The built-in objects in a store with these limits, where `first` is the number of the first word.
fn objects_in(
    alloc: Global,
    texts: &Texts,
    first: u32,
    most_objects: u64,
    most_properties: u64,
) -> Result<Objects, AllocError>
    requires objects { most_objects < 2147483648 }
    requires properties { most_properties < 2147483648 }
    ensures { IfOk result (λ objects. objects ≡ objects_in texts.now.texts first most_objects most_properties) }
{
    let mut objects = Objects::new(alloc, most_objects, most_properties);
    fill(&mut objects, texts, first)?;
    freeze_to(&mut objects, built_ins());
    Ok(objects)
}

/// How many objects and properties stand among the built-in ones.
fn counts(alloc: Global, texts: &Texts, first: u32) -> Result<(u64, u64), AllocError>
    ensures objects { IfOk result (λ n. n.0 ≡ length (unbounded texts.now.texts first).objects) }
    ensures properties { IfOk result (λ n. n.1 ≡ property_count (unbounded texts.now.texts first).objects) }
{
    let objects = objects_in(alloc, texts, first, MOST, MOST)?;
    Ok((objects.count(), objects.property_count()))
}

/// A limit, raised by a count, and an error where it would reach 2^31.
fn raise(limit: u64, count: u64) -> Result<u64, AllocError>
    ensures sum { IfOk result (λ n. n ≡ limit + count) }
    ensures below { IfOk result (λ n. n < 2147483648) }
{
    match limit.checked_add(count) {
        Some(n) if n <= MOST => Ok(n),
        _ => Err(AllocError),
    }
}

/// The built-in objects with limits that are raised by what stands there.
fn raised(alloc: Global, texts: &Texts, first: u32, limits: &Limits) -> Result<Objects, AllocError>
    ensures { IfOk result (λ objects. objects ≡ raised texts.now.texts first limits.now.objects limits.now.properties) }
{
    let (objects, properties) = counts(alloc, texts, first)?;
    let most_objects = raise(limits.objects, objects)?;
    let most_properties = raise(limits.properties, properties)?;
    objects_in(alloc, texts, first, most_objects, most_properties)
}

/// The opening store of a run of this code under these limits, which are raised by what stands in it.
///
/// # Errors
/// Want of memory, also where a limit so raised would reach 2^31.
pub fn opening(alloc: Global, code: &Code, limits: &Limits) -> Result<Store, AllocError>
    ensures texts { IfOk result (λ s. s.texts ≡ text_store code.now.literals limits.now.text) }
    ensures objects { IfOk result (λ s. s.objects ≡ opening_objects code.now.literals limits.now.objects limits.now.properties) }
{
    let units = opening_units(alloc, code)?;
    let most = raise(limits.text, units)?;
    let Worded { texts, first } = opening_texts(alloc, code, most)?;
    let objects = raised(alloc, &texts, first, limits)?;
    Ok(Store { texts, objects })
}
