//! The code of a run.

ghost use Rattle.std.specs.Prelude.{◌≡◌, All, ◌<◌, length, slice_get};
ghost use Rattle.std.specs.Option.{option_copied};

use crate::body::Body;
use actx_text::{BodyId, Units};
use std::marker::Model;

/// The code of a run. Contracts see three lists: the bodies, the literal texts, and the bodies of the
/// functions that the bundled text declares at its top.
#[derive(Drop)]
pub struct Code {
    bodies: Vec<Body>,
    literals: Vec<Units>,
    bundled: Vec<BodyId>,
}

impl Model for Code {
    ghost use Rattle.actx_code.specs.Codes.{Lists};
    ghost use Rattle.actx_code.specs.contracts.form.Form as forms;
    ghost use Rattle.std.specs.Coded.{codes};

    ghost Value = { Lists };

    ghost view = { λ c. record { bodies = c.bodies.items; literals = c.literals.items; bundled = c.bundled.items } };

    ghost coded = { Prim.hlevel (codes, forms.the_row.coded) };
}

impl Code {
    /// The code of these three lists. Literal i is the text number i + 1 of a run, and the empty text
    /// is number 0, so no literal is empty.
    pub fn new(bodies: Vec<Body>, literals: Vec<Units>, bundled: Vec<BodyId>) -> Code
        requires { All (λ literal. 0 < length literal) literals.items }
        ensures { result ≡ record { bodies = bodies.items; literals = literals.items; bundled = bundled.items } }
    {
        Code {
            bodies,
            literals,
            bundled,
        }
    }

    /// The body of the i-th function that the bundled text declares at its top, in source order, from
    /// 0; `None` exactly where there is none.
    pub fn bundled(&self, i: u32) -> Option<BodyId>
        ensures { result ≡ slice_get self.now.bundled i }
    {
        self.bundled.get(i as usize).copied()
    }

    /// The body of this number; `None` exactly where there is none.
    pub fn body(&self, b: BodyId) -> Option<&Body>
        ensures { option_copied result ≡ slice_get self.now.bodies b.0 }
    {
        self.bodies.get(b.0 as usize)
    }

    /// The i-th literal text, from 0; `None` exactly where there is none.
    pub fn literal(&self, i: u32) -> Option<&Units>
        ensures { option_copied result ≡ slice_get self.now.literals i }
    {
        self.literals.get(i as usize)
    }
}
