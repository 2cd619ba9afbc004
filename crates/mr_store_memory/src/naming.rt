//! The family that an operation names. A record that names a family is one of family 0:
//!
//!     key     the kind 0 0 0 3, the family's number u32, big-endian
//!     value   the family's name; one that begins with rev: has its keys in reverse order
ghost use Rattle.std.specs.Prelude.{◌≡◌, IfSome, IfNone};
ghost use Rattle.mr_stored.specs.Names.{is_reverse, direction_of_name};
ghost use Rattle.mr_store_memory.specs.ByName.{number_in as number_behind_kind, IsKeyOf, IsNoKey, IsName, IsNoName};

use byteorder::{BigEndian, ByteOrder};
use mr_base::Direction;
use mr_wal::Operation;

/// The number behind the kind; None where the key has another kind or length.
fn number_in(key: &[u8]) -> Option<u32>
    ensures { result ≡ number_behind_kind key.now }
{
    if key.len() != 8 || !key.starts_with(&[0, 0, 0, 3]) {
        return None;
    }
    Some(BigEndian::read_u32(&key[4..]))
}

/// The family whose record has this key, at least 2. The first two have none.
pub fn family_in(key: &[u8]) -> Option<u32>
    ensures found { IfSome result (λ f. IsKeyOf f key.now) }
    ensures none { IfNone result (IsNoKey key.now) }
{
    let number = number_in(key)?;
    if number < 2 {
        return None;
    }
    Some(number)
}

/// The direction of a family of this name.
pub fn direction_of(name: &[u8]) -> Direction
    ensures { result ≡ direction_of_name name.now }
{
    if name.starts_with(b"rev:") {
        Direction::Reverse
    } else {
        Direction::Forward
    }
}

/// The family that an operation names, at least 2, and its direction.
pub fn name_of(operation: &Operation) -> Option<(u32, Direction)>
    ensures named { IfSome result (λ n. IsName operation.now n.0 n.1) }
    ensures none { IfNone result (IsNoName operation.now) }
{
    if operation.family != 0 {
        return None;
    }
    let number = family_in(operation.key.as_slice())?;
    let name = operation.put.as_ref()?;
    Some((number, direction_of(name.as_slice())))
}
