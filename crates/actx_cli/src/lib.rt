//! The command line of the program: the words, the top call, statuses and error lines.
#![tactic(auto)]

mod answer;
mod laws;
mod pieces;
mod prepare;
mod reading;
mod report;
mod sinks;
mod top;
mod words;

pub use answer::{Answer, Refusal};
pub use laws::{not_both, one_refusal, one_text};
pub use top::actx;
pub use words::{Feed, Usage, Words, read_words};

#[cfg(test)]
mod tests;
