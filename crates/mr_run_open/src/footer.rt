//! The footer of a run.
//!
//!     footer   40 bytes: place of the index u64, its length u64, blocks u64, entries u64, the 8 bytes MRRUN001
ghost use Rattle.std.specs.Prelude.{◌≡◌, ◌==◌, ◌≤◌, ◌<◌, ◌+◌, ◌^◌, length, drop, IfOk};
ghost use Rattle.byteorder.specs.Endian.{big_number};
ghost use Rattle.mr_block.specs.Block.{outcome};
ghost use Rattle.mr_run_open.specs.Parts.{footer_of};

use crate::fields::{demand, number_at, rest_at};

/// The bytes of a footer.
pub const FOOTER: u64 = 40;

const FORMAT: &[u8; 8] = b"MRRUN001";

/// Where the index stands, how many bytes it has, and how many blocks.
#[derive(Clone, Copy, Drop)]
pub struct Footer {
    pub place: u64,
    pub size: u64,
    pub blocks: u64,
}

/// Whether the index ends where the footer begins.
fn adjoins(place: u64, size: u64, at: u64) -> bool
    requires { place ≤ at }
    ensures { result ≡ (place + size == at) }
{
    size == at - place
}

/// The footer at this place of the file of a run of so many entries, or the place of its first offence.
pub fn judge_footer(at: u64, entries: u64, footer: &[u8]) -> Result<Footer, u64>
    requires whole { length footer.now ≡ 40 }
    requires within { at + 40 < 2 ^ 64 }
    ensures judged { outcome result ≡ footer_of at entries footer.now }
    ensures place { IfOk result (λ f. f.place ≡ big_number 8 footer.now) }
    ensures size { IfOk result (λ f. f.size ≡ big_number 8 (drop 8 footer.now)) }
    ensures blocks { IfOk result (λ f. f.blocks ≡ big_number 8 (drop 16 footer.now)) }
    ensures some { IfOk result (λ f. 0 < f.blocks) }
    ensures fits { IfOk result (λ f. f.place + f.size ≡ at) }
{
    let place = number_at(footer, 0);
    demand(place <= at, at)?;
    let size = number_at(footer, 8);
    demand(adjoins(place, size, at), at + 8)?;
    let blocks = number_at(footer, 16);
    demand(1 <= blocks, at + 16)?;
    demand(number_at(footer, 24) == entries, at + 24)?;
    demand(rest_at(footer, 32) == FORMAT.as_slice(), at + 32)?;
    Ok(Footer {
        place,
        size,
        blocks,
    })
}
