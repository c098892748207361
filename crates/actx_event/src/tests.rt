//! Logs of small programs, and logs that break a rule each.

use crate::bracket::Bracket;
use crate::event::{AsyncId, Event, Numbered, SnapId, VarId, VarKind};
use crate::value::Shown;
use crate::{causal_step, chain, exec, first_failure, met_binding, nearest_binding, nests, opened};
use actx_text::{Units, from_units};
use std::alloc::{AllocError, Global};
use std::test::Fail;

// An event without its texts; a value is a number.
#[derive(Clone, Copy)]
enum Line {
    Init(u64, u64),
    Before(u64),
    After(u64),
    Destroy(u64),
    Snap(u64),
    Enter(u64),
    Leave(u64),
    Var(u32, i64),
    Bind(u32, i64),
    Unbind(u32),
    Set(u32, i64),
    Off(u32),
    Get(u32, i64),
    GetUndefined(u32),
    Turn(u64, u64),
    Arrive(u64, u64),
    Stray(u64),
    Print,
}

fn text(alloc: Global, s: &str) -> Result<Units, AllocError> {
    let mut units = Vec::new(alloc);
    for b in s.as_bytes() {
        units.push(u16::from(*b))?;
    }
    Ok(from_units(units))
}

fn event_of(alloc: Global, line: Line) -> Result<Event, AllocError> {
    let name = text(alloc, "name")?;
    Ok(match line {
        Line::Init(id, exec) => Event::Init {
            id: AsyncId(id),
            kind: name,
            trigger: exec,
            exec,
        },
        Line::Before(id) => Event::Before { id: AsyncId(id) },
        Line::After(id) => Event::After { id: AsyncId(id) },
        Line::Destroy(id) => Event::Destroy { id: AsyncId(id) },
        Line::Snap(snap) => Event::Snap { snap: SnapId(snap) },
        Line::Enter(snap) => Event::Enter { snap: SnapId(snap) },
        Line::Leave(snap) => Event::Leave { snap: SnapId(snap) },
        Line::Var(id, n) => Event::Var {
            id: VarId(id),
            kind: VarKind::Variable,
            name,
            default: Shown::Num(n),
        },
        Line::Bind(id, n) => Event::Bind {
            id: VarId(id),
            value: Shown::Num(n),
        },
        Line::Unbind(id) => Event::Unbind { id: VarId(id) },
        Line::Set(id, n) => Event::Set {
            id: VarId(id),
            value: Shown::Num(n),
        },
        Line::Off(id) => Event::Off { id: VarId(id) },
        Line::Get(id, n) => Event::Get {
            id: VarId(id),
            value: Shown::Num(n),
        },
        Line::GetUndefined(id) => Event::Get {
            id: VarId(id),
            value: Shown::Undefined,
        },
        Line::Turn(now, time) => Event::Turn { now, time },
        Line::Arrive(op, id) => Event::Arrive {
            op,
            id: AsyncId(id),
        },
        Line::Stray(op) => Event::Stray { op },
        Line::Print => Event::Print { text: name },
    })
}

fn log_of(alloc: Global, lines: &[Line]) -> Result<Vec<Event>, AllocError> {
    let mut log = Vec::new(alloc);
    for line in lines {
        log.push(event_of(alloc, *line)?)?;
    }
    Ok(log)
}

// Of: v.run(5, () => queueMicrotask(() => v.get())), with the default 0.
static MICROTASK: [Line; 11] = [
    Line::Init(1, 0),
    Line::Before(1),
    Line::Var(1, 0),
    Line::Bind(1, 5),
    Line::Init(2, 1),
    Line::Unbind(1),
    Line::After(1),
    Line::Before(2),
    Line::Get(1, 5),
    Line::After(2),
    Line::Destroy(2),
];

// Of: setTimeout(() => console.log('p'), 8); setTimeout(() => console.log('q'), 11), over the clock
// readings 10, 4 and 12.
static TIMERS: [Line; 16] = [
    Line::Init(1, 0),
    Line::Before(1),
    Line::Init(2, 1),
    Line::Init(3, 1),
    Line::After(1),
    Line::Turn(10, 10),
    Line::Before(2),
    Line::Print,
    Line::After(2),
    Line::Destroy(2),
    Line::Turn(4, 10),
    Line::Turn(12, 12),
    Line::Before(3),
    Line::Print,
    Line::After(3),
    Line::Destroy(3),
];

// Of two host operations, each made under a binding of its own, that arrive in the other order.
static OPERATIONS: [Line; 24] = [
    Line::Init(1, 0),
    Line::Before(1),
    Line::Var(1, 0),
    Line::Bind(1, 1),
    Line::Init(2, 1),
    Line::Unbind(1),
    Line::Bind(1, 2),
    Line::Init(3, 1),
    Line::Unbind(1),
    Line::After(1),
    Line::Turn(5, 5),
    Line::Arrive(2, 3),
    Line::Before(3),
    Line::Get(1, 2),
    Line::Print,
    Line::After(3),
    Line::Destroy(3),
    Line::Stray(9),
    Line::Arrive(1, 2),
    Line::Before(2),
    Line::Get(1, 1),
    Line::Print,
    Line::After(2),
    Line::Destroy(2),
];

// Of: als.run(1, () => { als.disable(); als.getStore(); }).
static DISABLED: [Line; 8] = [
    Line::Init(1, 0),
    Line::Before(1),
    Line::Var(1, 0),
    Line::Bind(1, 1),
    Line::Off(1),
    Line::GetUndefined(1),
    Line::Unbind(1),
    Line::After(1),
];

// Of a capture made under a binding and entered under another one, and of the empty capture.
static CAPTURES: [Line; 16] = [
    Line::Var(1, 0),
    Line::Bind(1, 1),
    Line::Snap(1),
    Line::Unbind(1),
    Line::Bind(1, 2),
    Line::Enter(1),
    Line::Get(1, 1),
    Line::Set(1, 3),
    Line::Get(1, 3),
    Line::Leave(1),
    Line::Get(1, 2),
    Line::Enter(0),
    Line::Get(1, 0),
    Line::Leave(0),
    Line::Unbind(1),
    Line::Get(1, 0),
];

#[test]
fn logs_of_programs_are_valid(rt: HostRuntime) -> Result<(), Fail> {
    let alloc = rt.alloc();
    let cases: [&[Line]; 5] = [&MICROTASK, &TIMERS, &OPERATIONS, &DISABLED, &CAPTURES];
    for lines in cases {
        let log = log_of(alloc, lines)?;
        assert_eq!(rt; first_failure(alloc, &log)?, None);
        assert!(rt; nests(alloc, &log)?);
    }
    Ok(())
}

#[test]
fn first_failures(rt: HostRuntime) -> Result<(), Fail> {
    let alloc = rt.alloc();
    let cases: [(&[Line], usize, u8); 13] = [
        (&[Line::Init(2, 0)], 0, 1),
        (&[Line::Snap(1), Line::Snap(1)], 1, 1),
        (&[Line::Var(2, 0)], 0, 1),
        (&[Line::Destroy(1)], 0, 2),
        (&[Line::Enter(1), Line::Leave(1)], 0, 2),
        (&[Line::GetUndefined(1)], 0, 2),
        (&[Line::Leave(0)], 0, 3),
        (
            &[
                Line::Init(1, 0),
                Line::Before(1),
                Line::Enter(0),
                Line::After(1),
            ],
            3,
            3,
        ),
        (&[Line::Init(1, 0), Line::Before(1), Line::Init(2, 0)], 2, 4),
        (&[Line::Var(1, 0), Line::Get(1, 1)], 1, 5),
        (
            &[
                Line::Var(1, 0),
                Line::Bind(1, 1),
                Line::Unbind(1),
                Line::Get(1, 1),
            ],
            3,
            5,
        ),
        (
            &[
                Line::Var(1, 0),
                Line::Set(1, 1),
                Line::Off(1),
                Line::Get(1, 1),
            ],
            3,
            5,
        ),
        (&[Line::Enter(0), Line::Enter(0), Line::Leave(0)], 3, 6),
    ];
    for (lines, place, number) in cases {
        let log = log_of(alloc, lines)?;
        let failure = first_failure(alloc, &log)?.ok_or("a valid log")?;
        assert_eq!(rt; failure.place, place, "rule {number}");
        assert_eq!(rt; failure.rule.number(), number, "at {place}");
    }
    Ok(())
}

#[test]
fn chains(rt: HostRuntime) -> Result<(), Fail> {
    let alloc = rt.alloc();
    let cases: [(&[Line], usize, &[usize], Option<usize>); 6] = [
        (&MICROTASK, 8, &[7, 3], Some(3)),
        (&MICROTASK, 6, &[5, 2, 1], None),
        (&DISABLED, 5, &[4, 3], Some(3)),
        (&OPERATIONS, 20, &[19, 3], Some(3)),
        (&OPERATIONS, 13, &[12, 6], Some(6)),
        (&CAPTURES, 6, &[5, 1], Some(1)),
    ];
    for (lines, place, numbers, met) in cases {
        let log = log_of(alloc, lines)?;
        assert!(rt; place <= log.len());
        assert_eq!(rt; chain(alloc, &log, place, VarId(1))?.as_slice(), numbers);
        assert_eq!(rt; met_binding(alloc, &log, place, VarId(1))?, met);
    }
    Ok(())
}

#[test]
fn places_of_a_log(rt: HostRuntime) -> Result<(), Fail> {
    let alloc = rt.alloc();
    let v = VarId(1);
    let log = log_of(alloc, &MICROTASK)?;
    assert_eq!(rt; log.len(), 11);
    assert_eq!(rt; causal_step(alloc, &log, 8)?, 4);
    assert_eq!(rt; exec(alloc, &log, 8)?, 2);
    assert!(rt; nearest_binding(alloc, &log, 8, v)?.is_same(&Shown::Num(5)));
    let brackets = opened(alloc, &log, 4)?;
    assert_eq!(rt; brackets.len(), 2);
    assert_eq!(rt; brackets[1].bracket, Bracket::Bound(v));
    assert_eq!(rt; log[4].number_made(Numbered::Resource), Some(2));
    assert_eq!(rt; log[8].number_named(Numbered::Variable), Some(1));
    assert!(rt;
        log[3].value_bound(v).is_some()
            && log[2].default_declared(v).is_some()
            && !log[2].switches_off(v)
    );
    Ok(())
}

#[test]
fn values_are_copied_and_compared(rt: HostRuntime) -> Result<(), Fail> {
    let alloc = rt.alloc();
    let values = [
        Shown::Undefined,
        Shown::Null,
        Shown::Bool(true),
        Shown::Bool(false),
        Shown::Num(-1),
        Shown::Num(1),
        Shown::Text(text(alloc, "")?),
        Shown::Text(text(alloc, "1")?),
        Shown::Made(1),
        Shown::Native(1),
    ];
    for (i, a) in values.iter().enumerate() {
        for (j, b) in values.iter().enumerate() {
            assert_eq!(rt; a.copy(alloc)?.is_same(b), i == j, "{i} {j}");
        }
    }
    Ok(())
}
