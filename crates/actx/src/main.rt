//! The program: runs the command line over the system's files, streams and clock.
#![tactic(auto)]

use actx_cli::actx;
use actx_outside::{ClockTape, FileShelf, StdSink};
use std::env;
use std::process::ExitCode;

// All arguments but the program's name. Where one isn't text, or memory runs out, there are none: no
// command line, which the top call refuses.
fn words(rt: &(impl std::env::Env + AllocGlobal)) -> Vec<String> {
    let mut words = Vec::new(rt.alloc());
    let Ok(args) = env::args(rt) else {
        return words;
    };
    for word in args.skip(1) {
        if words.push(word).is_err() {
            return Vec::new(rt.alloc());
        }
    }
    words
}

fn main(rt: HostRuntime) -> ExitCode {
    let alloc = rt.alloc();
    let words = words(&rt);
    let mut shelf = FileShelf::new(alloc, rt);
    let mut out = StdSink::new(rt.stdout());
    let mut err = StdSink::new(rt.stderr());
    let mut tape = ClockTape::new();
    ExitCode::from(actx(alloc, &words, &mut shelf, &mut out, &mut err, &mut tape))
}
