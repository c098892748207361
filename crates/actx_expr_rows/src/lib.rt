//! Tables of small expressions and the shapes of their trees, against the code that reads them.
#![tactic(auto)]

#[cfg(test)]
mod binds;
#[cfg(test)]
mod parts;
#[cfg(test)]
mod rows;
#[cfg(test)]
mod shapes;
#[cfg(test)]
mod signs;
#[cfg(test)]
mod tests;
#[cfg(test)]
mod words;
