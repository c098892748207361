//! Measures objects. The words `names N W` make N reads of properties of an object that has W, one name
//! after the other; `push N` puts N elements into an array; `map N` fills a Map with N entries, walks over
//! it, drops every second entry and walks again. Each prints what it comes to. `bench/run.py` compares
//! their times.
#![tactic(auto)]

use actx_objects::{Kind, Objects};
use actx_text::{Units, from_units};
use actx_value::{Key, ObjId, Texts, Value};
use std::alloc::{AllocError, Global};
use std::env;
use std::process::ExitCode;

// More than any measurement makes.
const LIMIT: u64 = 2_000_000_000;

// A text of two units for each number below a million.
fn name(alloc: Global, number: u32) -> Result<Units, AllocError> {
    let mut units = Vec::new(alloc);
    units.push((1 + number % 1000) as u16)?;
    units.push((1 + number / 1000 % 1000) as u16)?;
    Ok(from_units(units))
}

// Writes a property under each of `width` names.
fn fill(
    alloc: Global,
    objects: &mut Objects,
    o: ObjId,
    texts: &mut Texts,
    width: u32,
) -> Option<Vec<Key>> {
    let mut keys = Vec::new(alloc);
    for number in 0..width {
        let k = Key::Name(texts.add(name(alloc, number).ok()?).ok()?);
        objects
            .set(o, k, Value::Num(i64::from(number)), texts)
            .ok()?;
        keys.push(k).ok()?;
    }
    Some(keys)
}

// Reads one property after the other.
fn through_names(alloc: Global, count: u64, width: u32) -> Option<u64> {
    let mut texts = Texts::new(alloc, LIMIT);
    let mut objects = Objects::new(alloc, 1, LIMIT);
    let o = objects.make(Kind::Plain, None).ok()?;
    let keys = fill(alloc, &mut objects, o, &mut texts, width)?;
    if keys.is_empty() {
        return None;
    }
    let mut read = 0u64;
    for turn in 0..count {
        let k = keys[(turn % keys.len() as u64) as usize];
        if let Some(Value::Num(n)) = objects.get(o, k, &texts) {
            read ^= n.unsigned_abs();
        }
    }
    Some(read)
}

// Puts elements at the end of an array.
fn through_pushes(alloc: Global, count: u64) -> Option<u64> {
    let mut objects = Objects::new(alloc, 1, LIMIT);
    let o = objects.make(Kind::Array, None).ok()?;
    for turn in 0..count {
        if objects.kind(o) != Kind::Array {
            return None;
        }
        objects.push(o, Value::Num((turn % 1000) as i64)).ok()?;
    }
    Some(objects.len(o) as u64)
}

// Puts an entry under each number.
fn put_all(objects: &mut Objects, o: ObjId, texts: &Texts, count: u64) -> Option<()> {
    for turn in 0..count {
        if objects.kind(o) != Kind::Map {
            return None;
        }
        objects
            .entry_put(
                o,
                Value::Num((turn % 1_000_000_000) as i64),
                Value::Null,
                texts,
            )
            .ok()?;
    }
    Some(())
}

// How many entries a walk sees that asks for at most so many places.
fn walked(objects: &Objects, o: ObjId, count: u64) -> u64 {
    let mut place = 0u64;
    let mut seen = 0u64;
    for _ in 0..count {
        match objects.entry_at(o, place) {
            Some((at, _, _)) => {
                place = at.wrapping_add(1);
                seen = seen.wrapping_add(1);
            }
            None => return seen,
        }
    }
    seen
}

// Fills a Map, walks over it, drops every second entry and walks again.
fn through_map(alloc: Global, count: u64) -> Option<u64> {
    let texts = Texts::new(alloc, LIMIT);
    let mut objects = Objects::new(alloc, 1, LIMIT);
    let o = objects.make(Kind::Map, None).ok()?;
    put_all(&mut objects, o, &texts, count)?;
    let all = walked(&objects, o, count);
    for turn in 0..count / 2 {
        objects.entry_drop(o, Value::Num((turn % 1_000_000_000 * 2) as i64), &texts);
    }
    let left = walked(&objects, o, count);
    Some(all.wrapping_add(left))
}

// What the words ask for; None where they ask for nothing, or memory runs out.
fn measured(alloc: Global, what: &str, count: u64, width: u32) -> Option<u64> {
    match what {
        "names" => through_names(alloc, count, width),
        "push" => through_pushes(alloc, count),
        "map" => through_map(alloc, count),
        _ => None,
    }
}

fn main(rt: HostRuntime) -> ExitCode {
    let Ok(args) = env::args(&rt) else {
        return ExitCode::from(64);
    };
    let mut words = args.skip(1);
    let (Some(what), Some(count)) = (words.next(), words.next()) else {
        return ExitCode::from(64);
    };
    let Ok(count) = count.as_str().parse::<u64>() else {
        return ExitCode::from(64);
    };
    let width = match words.next() {
        Some(width) => width.as_str().parse::<u32>().unwrap_or(8),
        None => 8,
    };
    match measured(rt.alloc(), what.as_str(), count, width) {
        Some(read) => match println!(rt; "{read}") {
            Ok(()) => ExitCode::from(0),
            Err(_) => ExitCode::from(74),
        },
        None => ExitCode::from(75),
    }
}
