//! Dictionaries loaded from lists of versions, older ones and deletions among them.
ghost use Rattle.std.specs.Prelude.{◌≡◌, false, [], IfOk};
ghost use mathlib.Core.Bool.{true≢false};
ghost use Rattle.std.proofs.Common.{sym};
ghost use Rattle.mr_base.specs.Disk.{at_rest};

use mr_base::{Direction, Disk, DiskFault, Memory, Stop};
use mr_dict::{Dict, DictEntry, key_of_entry, load, write_entry};
use mr_memtable::Memtable;
use std::alloc::Global;

/// A disk that tells nothing and that no cursor over memory uses.
#[derive(Drop)]
struct Unused {
    faults: u64,
}

impl Disk for Unused {
    ghost disk = { λ b. record { tells = false; moments = λ k. record { files = λ f. at_rest []; output = [] }; now = 0; faults = b.faults; emit_faults = 0; reads = 0; asked = 0; syncs = 0 } };

    ghost read_may_be_left = { λ b file tells. absurd (true≢false (sym tells)) };

    fn read(&mut self, _: u64, _: u64, _: &mut [u8]) -> Result<usize, DiskFault> {
        self.faults = self.faults.saturating_add(1);
        Err(DiskFault)
    }

    fn write_at(&mut self, _: u64, _: u64, _: &[u8]) -> Result<(), DiskFault> {
        self.faults = self.faults.saturating_add(1);
        Err(DiskFault)
    }

    fn cut(&mut self, _: u64, _: u64) -> Result<(), DiskFault> {
        self.faults = self.faults.saturating_add(1);
        Err(DiskFault)
    }

    fn sync(&mut self, _: u64) -> Result<(), DiskFault> {
        self.faults = self.faults.saturating_add(1);
        Err(DiskFault)
    }

    fn length(&mut self, _: u64) -> Result<u64, DiskFault> {
        self.faults = self.faults.saturating_add(1);
        Err(DiskFault)
    }
}

/// The entry that a letter stands for.
fn entry_of(letter: u8) -> DictEntry {
    match letter {
        b'a' => DictEntry::LastCommit {
            commits: 1,
            moment: 10,
        },
        b'b' => DictEntry::LastCommit {
            commits: 2,
            moment: 20,
        },
        b'g' => DictEntry::Greatest(77),
        b'n' => DictEntry::NextHidden {
            number: 256,
            next: 7,
        },
        b'm' => DictEntry::NextHidden {
            number: 257,
            next: 9,
        },
        b'i' => DictEntry::Index {
            number: 257,
            family: 2,
        },
        _ => DictEntry::Dropped {
            number: 258,
            family: 1,
        },
    }
}

/// Makes room for one version and adds it.
fn add(table: &mut Memtable, key: &[u8], sequence: u64, put: Option<&[u8]>) -> Result<(), Memory> {
    let bytes = key.len() + put.unwrap_or(&[]).len();
    table.reserve(1, bytes)?;
    table.insert(key, sequence, put);
    Ok(())
}

/// Puts a letter's entry; a capital deletes it; `?` puts what is no entry, and `!` deletes that.
fn add_letter(
    alloc: Global,
    table: &mut Memtable,
    sequence: u64,
    letter: u8,
) -> Result<(), Memory> {
    match letter {
        b'?' => add(table, b"\0\0\0\x09", sequence, Some(b"")),
        b'!' => add(table, b"\0\0\0\x09", sequence, None),
        b'A'..=b'Z' => {
            let key = key_of_entry(alloc, &entry_of(letter.to_ascii_lowercase()))?;
            add(table, key.as_slice(), sequence, None)
        }
        _ => {
            let (key, value) = write_entry(alloc, &entry_of(letter))?;
            add(table, key.as_slice(), sequence, Some(value.as_slice()))
        }
    }
}

/// The dictionary of what these letters put and delete, one after the other.
fn loaded(alloc: Global, letters: &[u8]) -> Result<Dict, Stop> {
    let mut table = Memtable::new(alloc, Direction::Forward);
    let mut sequence = 0u64;
    'adding: for letter in letters {
        sequence = sequence.saturating_add(1);
        add_letter(alloc, &mut table, sequence, *letter)?;
    }
    let mut disk = Unused { faults: 0 };
    let mut cursor = table.cursor();
    load(alloc, &mut disk, &mut cursor)
}

/// What was put and deleted, and how many entries there are then, the commits, their moment, the greatest index number, and the next
/// hidden numbers of 256 and 257.
const ROWS: &[u8] = b"\
/\x00\x00\x00\xFF\x01\x01;\
a/\x01\x01\x0A\xFF\x01\x01;\
ab/\x01\x02\x14\xFF\x01\x01;\
ba/\x01\x01\x0A\xFF\x01\x01;\
abA/\x00\x00\x00\xFF\x01\x01;\
aAb/\x01\x02\x14\xFF\x01\x01;\
gnmb/\x04\x02\x14\x4D\x07\x09;\
mgin/\x04\x00\x00\x4D\x07\x09;\
gGmn?!M/\x01\x00\x00\xFF\x07\x01";

fn tells(dict: &Dict, numbers: &[u8]) -> bool {
    match numbers {
        [count, commits, moment, greatest, next, other] => {
            dict.count() == *count as usize
                && dict.commits() == *commits as u64
                && dict.moment() == *moment as u64
                && dict.greatest_index() == *greatest as u32
                && dict.next_hidden(256) == *next as u64
                && dict.next_hidden(257) == *other as u64
        }
        _ => false,
    }
}

fn is_row(alloc: Global, row: &[u8]) -> bool {
    let mut parts = row.split(|byte| *byte == b'/');
    let letters = parts.next().unwrap_or(&[]);
    let numbers = parts.next().unwrap_or(&[]);
    match loaded(alloc, letters) {
        Ok(dict) => tells(&dict, numbers),
        Err(_) => false,
    }
}

#[test]
fn the_newest_of_each_key(rt: HostRuntime) {
    for row in ROWS.split(|byte| *byte == b';') {
        assert!(rt; is_row(rt.alloc(), row), "{row:?}");
    }
}

fn is_damage(alloc: Global, letters: &[u8]) -> bool {
    match loaded(alloc, letters) {
        Err(Stop::Damaged { file, at }) => file == 0 && at == 0,
        _ => false,
    }
}

#[test]
fn what_is_no_entry_is_damage(rt: HostRuntime) {
    for row in b"?;a?;!?g".split(|byte| *byte == b';') {
        assert!(rt; is_damage(rt.alloc(), row), "{row:?}");
    }
}
