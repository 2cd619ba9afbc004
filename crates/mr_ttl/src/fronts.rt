//! The numbers in front of keys and values.
ghost use Rattle.std.specs.Prelude.{◌≡◌};
ghost use Rattle.mr_ttl.specs.Filters.{index_of as index_in_front, stamp_of as stamp_in_front};

/// The index number in front of a key, where the key has so many bytes.
pub fn index_of(key: &[u8]) -> Option<u32>
    ensures { result ≡ index_in_front key.now }
{
    if key.len() < 4 {
        return None;
    }
    let front = key.split_at(4).0;
    Some(u32::from_be_bytes([front[0], front[1], front[2], front[3]]))
}

/// The stamp in front of a value, where the value has so many bytes.
pub fn stamp_of(value: &[u8]) -> Option<u64>
    ensures { result ≡ stamp_in_front value.now }
{
    if value.len() < 8 {
        return None;
    }
    let front = value.split_at(8).0;
    Some(u64::from_be_bytes([
        front[0], front[1], front[2], front[3], front[4], front[5], front[6], front[7],
    ]))
}
