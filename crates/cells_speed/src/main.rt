//! Measures cells beside a plain list. The words `cells N` make N writes and N reads of cells at no
//! hop, the words `list N` the same of a list by index; either prints what the reads come to.
//! `bench/run.py` compares their times.
#![tactic(auto)]

use actx_cells::Cells;
use actx_value::Value;
use std::alloc::{AllocError, Global};
use std::env;
use std::process::ExitCode;

// How many cells there are.
const CELLS: u32 = 8;

// Writes and reads cells of one scope in turn.
fn through_cells(alloc: Global, count: u64) -> Option<u64> {
    let mut cells = Cells::new(alloc, 1000);
    let scope = cells.scope(None, CELLS).ok()?;
    for slot in 0..CELLS {
        cells.init(scope, slot, Value::Undefined);
    }
    let mut read = 0u64;
    for turn in 0..count {
        let slot = (turn % 8) as u32;
        cells
            .set(scope, 0, slot, Value::Num((turn % 1000) as i64))
            .ok()?;
        if let Ok(Value::Num(n)) = cells.get(scope, 0, slot) {
            read ^= n.unsigned_abs();
        }
    }
    Some(read)
}

// The same of a list.
fn through_list(alloc: Global, count: u64) -> Result<u64, AllocError> {
    let mut list = Vec::new(alloc);
    for _ in 0..CELLS {
        list.push(Value::Undefined)?;
    }
    let mut read = 0u64;
    for turn in 0..count {
        let slot = (turn % 8) as usize;
        if slot < list.len() {
            list[slot] = Value::Num((turn % 1000) as i64);
            if let Value::Num(n) = list[slot] {
                read ^= n.unsigned_abs();
            }
        }
    }
    Ok(read)
}

// What the words ask for; None where they ask for nothing, or memory runs out.
fn measured(alloc: Global, what: &str, count: u64) -> Option<u64> {
    match what {
        "cells" => through_cells(alloc, count),
        "list" => through_list(alloc, count).ok(),
        _ => None,
    }
}

fn main(rt: HostRuntime) -> ExitCode {
    let Ok(args) = env::args(&rt) else {
        return ExitCode::from(64);
    };
    let mut words = args.skip(1);
    let (Some(what), Some(count)) = (words.next(), words.next()) else {
        return ExitCode::from(64);
    };
    let Ok(count) = count.as_str().parse::<u64>() else {
        return ExitCode::from(64);
    };
    match measured(rt.alloc(), what.as_str(), count) {
        Some(read) => match println!(rt; "{read}") {
            Ok(()) => ExitCode::from(0),
            Err(_) => ExitCode::from(74),
        },
        None => ExitCode::from(75),
    }
}
