//! What a run meets outside of itself: files by name (`Shelf`), streams that take bytes (`Sink`) and
//! turns of the event loop (`Tape`).
//!
//! Each trait says what its calls tell, and counts or lists its failures, so that a caller's contract
//! can name the cause of each refusal. `ListShelf` and `MemSink` stand in memory and tell all they
//! hold; `FileShelf`, `StdSink` and `ClockTape` are the trusted edge to the system and tell nothing
//! of content.
#![tactic(auto)]

mod clock_tape;
mod failed;
mod file_shelf;
mod list_shelf;
mod mem_sink;
mod shelf;
mod sink;
mod std_sink;
mod tape;

pub use clock_tape::ClockTape;
pub use file_shelf::FileShelf;
pub use list_shelf::ListShelf;
pub use mem_sink::MemSink;
pub use shelf::{Shelf, ShelfError};
pub use sink::{Sink, SinkFault};
pub use std_sink::StdSink;
pub use tape::{Numbers, Tape, TapeStop, Turn};

#[cfg(test)]
mod tests;
