//! White space, line ends and comments (ECMA-262 §12.2 to §12.5).

ghost use Rattle.std.specs.Prelude.{◌≡◌, false, None};
ghost use Rattle.actx_lex.specs.Gaps.{Gap};
ghost use Rattle.actx_lex.specs.Readers as readers;

use crate::cursor::Cursor;
use crate::unit::{is_line_end, is_white_space};

impl<'a> Cursor<'a> {
    /// The next line end, or the end of the text.
    #[tactic(auto, unfolding(crate::specs::Readers::to_line_end))]
    fn to_line_end(&self) -> Cursor<'a>
        ensures { result ≡ readers.to_line_end self.now }
    {
        let mut left = self.left;
        while let [unit, rest @ ..] = left {
            if is_line_end(*unit) {
                break;
            }
            left = rest;
        }
        Cursor { left }
    }

    /// The place after the next `*/`, and whether a line end stands before it.
    #[tactic(auto, unfolding(crate::specs::Readers::to_star))]
    fn to_star(&self) -> Option<(bool, Cursor<'a>)>
        ensures { result ≡ readers.to_star false self.now }
    {
        let mut left = self.left;
        let mut line = false;
        while let [unit, rest @ ..] = left {
            let after = Cursor { left: rest };
            if *unit == 42 && after.begins(47) {
                return Some((line, after.rest()));
            }
            line = line || is_line_end(*unit);
            left = rest;
        }
        None
    }

    /// The place after the comment whose first `/` stands before.
    fn comment(&self) -> Option<(bool, Cursor<'a>)>
        ensures { result ≡ readers.comment self.now }
    {
        match self.left {
            [] => None,
            [unit, rest @ ..] => {
                let after = Cursor { left: rest };
                if *unit == 47 {
                    Some((false, after.to_line_end()))
                } else if *unit == 42 {
                    after.to_star()
                } else {
                    None
                }
            }
        }
    }

    /// The place after one white space, line end or comment, and whether that counts as a line end.
    #[tactic(auto, unfolding(crate::specs::Readers::gap_item))]
    fn gap_item(&self) -> Option<(bool, Cursor<'a>)>
        ensures { result ≡ readers.gap_item self.now }
    {
        match self.left {
            [] => None,
            [unit, rest @ ..] => {
                let after = Cursor { left: rest };
                if is_line_end(*unit) {
                    Some((true, after))
                } else if is_white_space(*unit) {
                    Some((false, after))
                } else if *unit == 47 {
                    after.comment()
                } else {
                    None
                }
            }
        }
    }

    /// Goes past a gap, and answers whether it holds a line end.
    pub fn gap(&mut self) -> bool
        ensures gap { Gap result self.old self.new }
        ensures whole { readers.gap_item self.new ≡ None }
    {
        let mut line = false;
        while let Some((found, after)) = self.gap_item() {
            line |= found;
            *self = after;
        }
        line
    }

    /// The place after a comment `#!`, where one stands here.
    #[tactic(auto, unfolding(crate::specs::Readers::opened))]
    pub fn opened(&self) -> Cursor<'a>
        ensures { result ≡ readers.opened self.now }
    {
        match self.left {
            [] => Cursor { left: self.left },
            [unit, rest @ ..] => {
                let after = Cursor { left: rest };
                if *unit == 35 && after.begins(33) {
                    after.rest().to_line_end()
                } else {
                    Cursor { left: self.left }
                }
            }
        }
    }
}
