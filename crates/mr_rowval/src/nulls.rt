//! The null bits of a row's value, one per nullable column.

ghost use Rattle.std.specs.Prelude.{◌≡◌, ℕ, List, Bool, Some, true, length};
ghost use Rattle.mr_rowval.specs.NullBits.{nullable_count, one_more_if, flags_read};
ghost use Rattle.mr_rowval.specs.RowValue.{flags_at, first_flag, later_flags};
ghost use Rattle.mr_rowval.specs.Walking.{behind_of, Skips, bits_read, NextFlag, LeavesBits};

use mr_pieces::BytesLeft;
use mr_types::ColumnDef;

/// Bits that were not read yet: `left` bits of a byte, which are the number `byte`, and the bytes
/// behind it.
#[derive(Clone, Copy, Drop)]
pub struct Bits<'a> {
    pub left: u8,
    pub byte: u8,
    pub rest: &'a [u8],
}

/// How many columns take NULL.
pub fn nullable_count(columns: &[ColumnDef]) -> usize
    ensures { result ≡ nullable_count columns.now }
{
    let mut count = 0;
    for column in columns {
        if column.ty.nullable {
            count += 1;
        }
    }
    count
}

fn next_flag(bits: Bits<'_>) -> Option<(bool, Bits<'_>)>
    ensures next { (n : ℕ) → NextFlag n bits.entry result }
    ensures within { LeavesBits bits.entry result }
{
    if bits.left > 0 {
        let next = Bits {
            left: bits.left - 1,
            byte: bits.byte / 2,
            rest: bits.rest,
        };
        return Some((bits.byte % 2 == 1, next));
    }
    match bits.rest {
        [] => None,
        [byte, rest @ ..] => {
            let next = Bits {
                left: 7,
                byte: *byte / 2,
                rest,
            };
            Some((*byte % 2 == 1, next))
        }
    }
}

/// Whether a column is NULL by its bit, which is the next one where it takes NULL; and the bits
/// behind it.
pub fn column_flag(nullable: bool, bits: Bits<'_>) -> (bool, Bits<'_>)
    ensures { (n : ℕ) (flags : List Bool) (after : List ℕ) → bits_read (one_more_if nullable n) bits.entry ≡ Some (flags, after) → (result.0 ≡ first_flag nullable flags) × (bits_read n result.1 ≡ Some (later_flags nullable flags, after)) }
{
    if !nullable {
        return (false, bits);
    }
    match next_flag(bits) {
        None => (false, bits),
        Some(next) => next,
    }
}

/// What stands behind the null bits of so many columns.
pub fn nulls_at(count: usize, bytes: &[u8]) -> Result<&[u8], BytesLeft>
    ensures { Skips bytes.now result (behind_of (flags_at count bytes.now)) }
{
    let mut bits = Bits {
        left: 0,
        byte: 0,
        rest: bytes,
    };
    for _ in 0..count {
        match next_flag(bits) {
            None => return Err(bytes.len()),
            Some((_, next)) => bits = next,
        }
    }
    if bits.byte != 0 {
        return Err(bytes.len());
    }
    Ok(bits.rest)
}
