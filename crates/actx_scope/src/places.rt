//! Where bodies stand in a list, by their first tokens.

ghost use Rattle.actx_scope.specs.Places.{Finds};
ghost use Rattle.std.specs.Prelude.{◌≡◌, true, IfOk};

use actx_tree::BodyTree;
use std::alloc::{AllocError, Global};
use std::collections::HashMap;

/// The places of bodies in a list, by the places of their first tokens.
#[derive(Drop)]
pub struct Places {
    /// The last place of each.
    pub map: HashMap<u128, usize>,
    /// Whether no two begin with one token.
    pub exact: bool,
}

/// The places of the bodies of a file.
pub fn places_of(alloc: Global, list: &[BodyTree]) -> Result<Places, AllocError>
    ensures { IfOk result (λ p. p.exact ≡ true → Finds p.map 0 list.now) }
{
    let mut map = HashMap::new(alloc);
    for (i, body) in list.iter().enumerate() {
        match map.insert(body.from as u128, i)? {
            Some(_) => return Ok(Places { map, exact: false }),
            None => {}
        }
    }
    Ok(Places { map, exact: true })
}
