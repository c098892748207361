//! The order of keys.

ghost use Rattle.std.specs.Prelude.{◌≡◌, ◌∷◌, [], ◌++◌, map, IfOk, OnOk};
ghost use Rattle.std.specs.List.{filter, filter_map};
ghost use Rattle.actx_objects.specs.Properties.{index_in, is_name, keys_in_order, ascending};
ghost use Rattle.actx_value.specs.declared.value.Key.TheVariants.{Index};

use actx_value::Key;
use std::alloc::{AllocError, Global};

/// The keys in their order: indices ascending, then the others in order of creation
/// (OrdinaryOwnPropertyKeys, ECMA-262 §10.1.11.1).
pub(crate) fn in_order(alloc: Global, keys: &[Key]) -> Result<Vec<Key>, AllocError>
    ensures { IfOk result (λ ordered. ordered.items ≡ keys_in_order keys.now) }
{
    let mut ordered = Vec::new(alloc);
    let indices = ascending_indices(alloc, keys)?;
    push_indices(&mut ordered, &indices)?;
    push_names(&mut ordered, keys)?;
    Ok(ordered)
}

/// The indices among keys, ascending.
fn ascending_indices(alloc: Global, keys: &[Key]) -> Result<Vec<u32>, AllocError>
    ensures { IfOk result (λ indices. indices.items ≡ ascending (filter_map index_in keys.now)) }
{
    let mut indices = Vec::new(alloc);
    push_all(&mut indices, keys)?;
    indices.sort()?;
    Ok(indices)
}

/// Puts the indices among keys at the end.
fn push_all(indices: &mut Vec<u32>, keys: &[Key]) -> Result<(), AllocError>
    ensures { OnOk result (indices.new.items ≡ indices.old.items ++ filter_map index_in keys.now) }
{
    for key in keys {
        push_index(indices, *key)?;
    }
    Ok(())
}

/// Puts a key that is an index at the end.
fn push_index(indices: &mut Vec<u32>, key: Key) -> Result<(), AllocError>
    ensures { OnOk result (indices.new.items ≡ indices.old.items ++ filter_map index_in (key ∷ [])) }
{
    match key {
        Key::Index(i) => indices.push(i)?,
        Key::Name(_) => {}
    }
    Ok(())
}

/// Puts indices at the end, as keys.
fn push_indices(ordered: &mut Vec<Key>, indices: &[u32]) -> Result<(), AllocError>
    ensures { OnOk result (ordered.new.items ≡ ordered.old.items ++ map Index indices.now) }
{
    for i in indices {
        ordered.push(Key::Index(*i))?;
    }
    Ok(())
}

/// Puts the keys that are names at the end.
fn push_names(ordered: &mut Vec<Key>, keys: &[Key]) -> Result<(), AllocError>
    ensures { OnOk result (ordered.new.items ≡ ordered.old.items ++ filter is_name keys.now) }
{
    for key in keys {
        push_name(ordered, *key)?;
    }
    Ok(())
}

/// Puts a key that is a name at the end.
fn push_name(ordered: &mut Vec<Key>, key: Key) -> Result<(), AllocError>
    ensures { OnOk result (ordered.new.items ≡ ordered.old.items ++ filter is_name (key ∷ [])) }
{
    match key {
        Key::Index(_) => {}
        Key::Name(_) => ordered.push(key)?,
    }
    Ok(())
}
