//! A table of small files and their early errors, against the code that looks for them.
#![tactic(auto)]

#[cfg(test)]
mod rows;
#[cfg(test)]
mod tests;
