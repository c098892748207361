//! The tree of a file.

use crate::stmt::Stmt;
use sqlite_items::Items;

/// The body of a function.
#[derive(Drop)]
pub struct BodyTree {
    /// The place of its first token, counted from 0 in the file's tokens.
    pub from: usize,
    /// Its statements.
    pub items: Items<Stmt>,
}

/// The tree of a file: its statements, and the bodies of all functions in it, those in bodies too.
#[derive(Drop)]
pub struct Tree {
    pub items: Items<Stmt>,
    pub bodies: Items<BodyTree>,
}
