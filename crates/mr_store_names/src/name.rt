//! A family and its direction.
ghost use Rattle.std.specs.Prelude.{◌≡◌, true, IfSome, IfNone};
ghost use Rattle.mr_stored.specs.Names.{direction_of_name};
ghost use Rattle.mr_store_memory.specs.ByName.{IsKeyOf, IsNoKey};

use mr_base::Direction;
use mr_store_memory::{direction_of, family_in};

/// A family and its direction, by the last record that names it.
#[derive(Clone, Copy)]
pub struct Name {
    pub family: u32,
    pub direction: Direction,
}

/// The family from 2 on that a key and a value name, where they were put.
pub fn name_of(key: &[u8], is_put: bool, value: &[u8]) -> Option<Name>
    ensures key { IfSome result (λ n. IsKeyOf n.family key.now) }
    ensures put { IfSome result (λ n. is_put ≡ true) }
    ensures direction { IfSome result (λ n. n.direction ≡ direction_of_name value.now) }
    ensures none { is_put ≡ true → IfNone result (IsNoKey key.now) }
{
    if !is_put {
        return None;
    }
    let family = family_in(key)?;
    Some(Name {
        family,
        direction: direction_of(value),
    })
}
