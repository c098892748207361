ghost use Rattle.std.specs.Prelude.{◌<◌};

use super::*;
use actx_outside::{ClockTape, ListShelf, MemSink};
use std::alloc::Global;
use std::process::Abort;
use std::test::Fail;

// A call: its words, what `f.js` holds, how many bytes a write takes, and which fetch, which write to
// standard output and which to standard error fails.
#[derive(Clone, Copy)]
struct Case<'a> {
    words: &'a [&'a str],
    file: &'a [u8],
    cut: usize,
    fetch: Option<u64>,
    write: Option<u64>,
    report: Option<u64>,
}

const RUN: Case<'static> = Case {
    words: &["run", "f.js"],
    file: b"",
    cut: 1000,
    fetch: None,
    write: None,
    report: None,
};

// What a call came to.
#[derive(Drop)]
struct Seen {
    status: u8,
    out: Vec<u8>,
    err: Vec<u8>,
}

// The number of the one that fails, or no number.
fn listed(alloc: Global, number: Option<u64>) -> Result<Vec<u64>, Fail> {
    let mut numbers = Vec::new(alloc);
    if let Some(number) = number {
        numbers.push(number)?;
    }
    Ok(numbers)
}

fn call(alloc: Global, case: &Case<'_>) -> Result<Seen, Fail> {
    let mut words = Vec::new(alloc);
    for word in case.words {
        words.push(String::from_str(alloc, *word)?)?;
    }
    let mut files = Vec::new(alloc);
    files.push((
        String::from_str(alloc, "f.js")?,
        Vec::from_slice(alloc, case.file)?,
    ))?;
    let mut shelf = ListShelf::new(alloc, files, listed(alloc, case.fetch)?);
    let mut out = MemSink::new(alloc, case.cut.max(1), listed(alloc, case.write)?);
    let mut err = MemSink::new(alloc, case.cut.max(1), listed(alloc, case.report)?);
    let mut tape = ClockTape::new();
    let status = actx(alloc, &words, &mut shelf, &mut out, &mut err, &mut tape);
    Ok(Seen {
        status,
        out: Vec::from_slice(alloc, out.as_slice())?,
        err: Vec::from_slice(alloc, err.as_slice())?,
    })
}

fn check(
    rt: &(impl Abort + AllocGlobal),
    case: &Case<'_>,
    status: u8,
    out: &[u8],
    err: &[u8],
) -> Result<(), Fail> {
    let seen = call(rt.alloc(), case)?;
    assert_eq!(rt; seen.out.as_slice(), out);
    assert_eq!(rt; seen.err.as_slice(), err);
    assert_eq!(rt; seen.status, status);
    Ok(())
}

#[test]
fn files_that_print(rt: HostRuntime) -> Result<(), Fail> {
    for (file, out) in [
        (
            b"console.log('hello', 7);".as_slice(),
            b"hello 7\n".as_slice(),
        ),
        (b"", b""),
        (b"console.log();", b"\n"),
        (
            b"console.log(9007199254740991, true, null);",
            b"9007199254740991 true null\n",
        ),
        (
            b" console.log(false);\nconsole.log( '' , 0 ); ",
            b"false\n 0\n",
        ),
        (b"console.log(\n'a',\n1\n)", b"a 1\n"),
        (
            b"console.log('\xC3\xA9\xE2\x82\xAC\xF0\x9F\x98\x80')",
            b"\xC3\xA9\xE2\x82\xAC\xF0\x9F\x98\x80\n",
        ),
    ] {
        check(&rt, &Case { file, ..RUN }, 0, out, b"")?;
        check(
            &rt,
            &Case {
                file,
                cut: 1,
                ..RUN
            },
            0,
            out,
            b"",
        )?;
    }
    Ok(())
}

#[test]
fn files_that_are_refused(rt: HostRuntime) -> Result<(), Fail> {
    for (file, err) in [
        (b"\xC3".as_slice(), b"actx: refused utf8 at 0\n".as_slice()),
        (b"console.log('\xE2\x82');", b"actx: refused utf8 at 13\n"),
        (
            b"console.log(9007199254740992);",
            b"actx: refused token at 12\n",
        ),
        (b"\xC3\xA9 @", b"actx: refused token at 2\n"),
        (b"console.log(1", b"actx: refused tree at 13\n"),
        (
            b"console.log('a') console.log('b')",
            b"actx: refused tree at 17\n",
        ),
        (b"console.log", b"actx: refused notbuilt at 0\n"),
        (b"console.log(1 + 1);", b"actx: refused notbuilt at 0\n"),
        (b"let a;", b"actx: refused notbuilt at 0\n"),
        (b"let a; let a;", b"actx: refused early at 1\n"),
        (b"console.log(nope);", b"actx: refused early at 3\n"),
        (b"const a = 1; a = 2;", b"actx: refused early at 4\n"),
        (b"break;", b"actx: refused early at 0\n"),
    ] {
        check(&rt, &Case { file, ..RUN }, 65, b"", err)?;
    }
    Ok(())
}

// The statement and 200 operators are nodes, and the next one has 201 nodes around it.
#[test]
fn a_file_that_is_nested_too_deep(rt: HostRuntime) -> Result<(), Fail> {
    let mut text = Vec::new(rt.alloc());
    for _ in 0..300 {
        text.push(b'!')?;
    }
    text.extend_from_slice(b"true")?;
    let line = b"actx: refused nested at 200\n";
    check(&rt, &Case { file: &text, ..RUN }, 65, b"", line)
}

// The kind of refusal that a line tells, by its place here: 4 for any other, and 5 for no line.
fn kind_of(line: &[u8]) -> usize
    ensures { result < 6 }
{
    if line.is_empty() {
        5
    } else if line.starts_with(b"actx: refused utf8 at ") {
        0
    } else if line.starts_with(b"actx: refused token at ") {
        1
    } else if line.starts_with(b"actx: refused tree at ") {
        2
    } else if line.starts_with(b"actx: refused early at ") {
        3
    } else {
        4
    }
}

// A file cut after each of its bytes prints, or is refused for a cause that its front has.
#[test]
fn a_file_that_is_cut(rt: HostRuntime) -> Result<(), Fail> {
    let file = "console.log('é', 1)\nconsole.log(`${[a => { b }]}`, /* c */ '😀')".as_bytes();
    let mut seen = [false; 6];
    for place in 0..file.len() {
        let file = &file[..place];
        let answer = call(rt.alloc(), &Case { file, ..RUN })?;
        let kind = kind_of(&answer.err);
        seen[kind] = true;
        assert_eq!(rt; answer.status, if kind == 5 { 0 } else { 65 });
    }
    assert_eq!(rt; seen, [true, true, true, true, true, true]);
    Ok(())
}

// These words are refused, and nothing is printed.
fn check_usage(rt: &(impl Abort + AllocGlobal), words: &[&str]) -> Result<(), Fail> {
    check(rt, &Case { words, ..RUN }, 64, b"", b"actx: usage\n")
}

#[test]
fn words_that_are_no_command_line(rt: HostRuntime) -> Result<(), Fail> {
    check_usage(&rt, &[])?;
    check_usage(&rt, &["run"])?;
    check_usage(&rt, &["run", ""])?;
    check_usage(&rt, &["run", "-f.js"])?;
    check_usage(&rt, &["run", "f.js", "f.js"])?;
    check_usage(&rt, &["walk", "f.js"])?;
    check_usage(&rt, &["Run", "f.js"])
}

#[test]
fn files_that_cannot_be_read(rt: HostRuntime) -> Result<(), Fail> {
    let line = b"actx: cannot read\n";
    let lacking = Case {
        words: &["run", "g.js"],
        ..RUN
    };
    check(&rt, &lacking, 66, b"", line)?;
    let failing = Case {
        file: b"console.log();",
        fetch: Some(0),
        ..RUN
    };
    check(&rt, &failing, 66, b"", line)
}

#[test]
fn a_file_that_is_too_long(rt: HostRuntime) -> Result<(), Fail> {
    let mut spaces = Vec::new(rt.alloc());
    for _ in 0..1_048_576 {
        spaces.push(b' ')?;
    }
    check(
        &rt,
        &Case {
            file: &spaces,
            ..RUN
        },
        0,
        b"",
        b"",
    )?;
    spaces.push(b' ')?;
    check(
        &rt,
        &Case {
            file: &spaces,
            ..RUN
        },
        66,
        b"",
        b"actx: too long\n",
    )
}

#[test]
fn the_second_write_fails(rt: HostRuntime) -> Result<(), Fail> {
    let case = Case {
        file: b"console.log(1); console.log(2);",
        write: Some(1),
        ..RUN
    };
    check(&rt, &case, 74, b"1\n", b"actx: write fault\n")
}

// With one byte a write, each write in turn fails: what stands before it was gained, and nothing else.
#[test]
fn each_write_fails_in_turn(rt: HostRuntime) -> Result<(), Fail> {
    let text = b"a 12\ntrue\n";
    for place in 0..text.len() {
        let case = Case {
            file: b"console.log('a', 12); console.log(true);",
            cut: 1,
            write: Some(place as u64),
            ..RUN
        };
        check(&rt, &case, 74, &text[..place], b"actx: write fault\n")?;
    }
    Ok(())
}

// With one byte a write, this write of a refusal's line fails: standard error gained what stands before.
fn check_report(
    rt: &(impl Abort + AllocGlobal),
    words: &[&str],
    place: u64,
    gained: &[u8],
) -> Result<(), Fail> {
    let case = Case {
        words,
        cut: 1,
        report: Some(place),
        ..RUN
    };
    check(rt, &case, 74, b"", gained)
}

// Each of them in turn.
fn check_reports(rt: &(impl Abort + AllocGlobal), words: &[&str], line: &[u8]) -> Result<(), Fail> {
    for place in 0..line.len() {
        check_report(rt, words, place as u64, &line[..place])?;
    }
    Ok(())
}

// Where the line of a refusal isn't taken whole, the status is that of a failed write.
#[test]
fn each_report_fails_in_turn(rt: HostRuntime) -> Result<(), Fail> {
    check_reports(&rt, &["run"], b"actx: usage\n")?;
    check_reports(&rt, &["run", "g.js"], b"actx: cannot read\n")?;
    let both = Case {
        file: b"console.log(1);",
        write: Some(0),
        report: Some(0),
        ..RUN
    };
    check(&rt, &both, 74, b"", b"")
}

#[test]
fn words_are_read(rt: HostRuntime) -> Result<(), Fail> {
    let alloc = rt.alloc();
    let words = vec![in alloc;
        String::from_str(alloc, "run")?,
        String::from_str(alloc, "a b.js")?,
    ]?;
    match read_words(&words) {
        Ok(Words::Run { steps, feed, file }) => {
            assert_eq!(rt; steps, 50_000_000);
            assert_eq!(rt; feed, Feed::Given);
            assert_eq!(rt; file, "a b.js");
        }
        Err(_) => assert!(rt; false, "it is a command line"),
    }
    Ok(())
}
