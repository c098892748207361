//! The tokens of a program's text (ECMA-262 §12, the profile's part of it): `docs/LEXICAL.md`.
#![tactic(auto)]

mod braces;
mod cursor;
mod element;
mod laws;
mod lex;
mod reserved;
#[cfg(test)]
mod tests;
mod token;
mod unit;

pub use laws::{one_list, order_of_tokens};
pub use lex::tokens;
pub use token::{LexError, Punct, Token, TokenKind};
