//! The bytes of keys and values, in pieces that stay where they are.
ghost use Rattle.std.specs.Prelude.{◌≡◌, ◌<◌, ◌≤◌, [], length, max, vec_len, vec_capacity, IfOk, OnOk, OnErr, true, false};
ghost use Rattle.mr_memtable.specs.Slots.{room_in, GoOn};

use mr_base::Memory;
use std::alloc::Global;

/// For how many bytes a piece has memory at least.
const LEAST: usize = 65_536;

/// Bytes of keys and values, one entry behind the other. All its memory is taken at the beginning, so that no entry moves.
#[derive(Drop)]
pub struct Piece {
    pub bytes: Vec<u8>,
}

impl Piece {
    /// A piece with memory for so many bytes, and none in it. Takes memory.
    fn new(alloc: Global, bytes: usize) -> Result<Piece, Memory>
        ensures empty { IfOk result (λ p. p.bytes.items ≡ []) }
        ensures room { IfOk result (λ p. vec_capacity p.bytes ≡ bytes) }
    {
        let bytes = Vec::with_capacity(alloc, bytes)?;
        Ok(Piece { bytes })
    }
}

/// Whether there is a last piece, with memory for so many bytes more.
fn has_room(pieces: &[Piece], bytes: usize) -> bool
    ensures some { result ≡ true → 0 < length pieces.now }
    ensures room { result ≡ true → bytes ≤ room_in pieces.now }
    ensures none { result ≡ false → 0 < length pieces.now → room_in pieces.now < bytes }
{
    if pieces.is_empty() {
        return false;
    }
    let last = &pieces[pieces.len() - 1];
    bytes <= last.bytes.capacity() - last.bytes.len()
}

/// Makes room for so many bytes in the last piece, which is a new one where the last has too little. Takes memory; no entry moves.
pub fn make_room(pieces: &mut Vec<Piece>, bytes: usize) -> Result<(), Memory>
    ensures pieces { GoOn pieces.old.items pieces.new.items }
    ensures some { OnOk result (0 < vec_len pieces.new) }
    ensures room { OnOk result (bytes ≤ room_in pieces.new.items) }
    ensures most { room_in pieces.new.items ≤ max (room_in pieces.old.items) (max bytes 65536) }
    ensures enough { 0 < vec_len pieces.old → bytes ≤ room_in pieces.old.items → pieces.new.items ≡ pieces.old.items }
    ensures same { OnErr result (pieces.new.items ≡ pieces.old.items) }
{
    if has_room(pieces, bytes) {
        return Ok(());
    }
    let piece = Piece::new(*pieces.allocator(), bytes.max(LEAST))?;
    match pieces.push(piece) {
        Ok(()) => Ok(()),
        Err(_) => Err(Memory),
    }
}
