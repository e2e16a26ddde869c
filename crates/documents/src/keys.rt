// Keys, under which an index keeps terms.
ghost use Rattle.std.specs.Prelude.{◌≡◌, ◌++◌, ◌∷◌, IfOk};

use owned_bytes::Key;
use std::alloc::{AllocError, Global};

/// The key of a term in a field: the field, a byte 0 and the term.
pub fn key_of(alloc: Global, field: &str, term: &str) -> Result<Key, AllocError>
    ensures { IfOk result (λ key. key ≡ field.now ++ 0 ∷ term.now) }
{
    let mut bytes = Vec::with_capacity(alloc, field.len() + 1 + term.len())?;
    bytes.extend_from_slice(field.as_bytes())?;
    bytes.push(0)?;
    bytes.extend_from_slice(term.as_bytes())?;
    Ok(Key::from_vec(bytes))
}
