//! Walks over memtables, alone, as one, and at a sequence number.
ghost use Rattle.std.specs.Prelude.{◌≡◌, false, [], IsSome};
ghost use mathlib.Core.Bool.{true≢false};
ghost use Rattle.std.proofs.Common.{sym};
ghost use Rattle.mr_base.specs.Disk.{at_rest};
ghost use Rattle.mr_iter.specs.Merging.{IsOneDirection};

use mr_base::{Direction, Disk, DiskFault, Memory, Stop};
use mr_iter::{AtSnapshot, Cursor, Listed, Merge};
use mr_memtable::Memtable;
use std::alloc::Global;
use std::test::Fail;

/// A disk that tells nothing and that no cursor over memory uses.
#[derive(Drop)]
struct Unused {
    faults: u64,
}

impl Disk for Unused {
    ghost disk = { λ b. record { tells = false; moments = λ k. record { files = λ f. at_rest []; output = [] }; now = 0; faults = b.faults; emit_faults = 0; reads = 0; asked = 0; syncs = 0 } };

    ghost read_may_be_left = { λ b file tells. absurd (true≢false (sym tells)) };

    fn read(&mut self, _: u64, _: u64, _: &mut [u8]) -> Result<usize, DiskFault> {
        self.faults = self.faults.saturating_add(1);
        Err(DiskFault)
    }

    fn write_at(&mut self, _: u64, _: u64, _: &[u8]) -> Result<(), DiskFault> {
        self.faults = self.faults.saturating_add(1);
        Err(DiskFault)
    }

    fn cut(&mut self, _: u64, _: u64) -> Result<(), DiskFault> {
        self.faults = self.faults.saturating_add(1);
        Err(DiskFault)
    }

    fn sync(&mut self, _: u64) -> Result<(), DiskFault> {
        self.faults = self.faults.saturating_add(1);
        Err(DiskFault)
    }

    fn length(&mut self, _: u64) -> Result<u64, DiskFault> {
        self.faults = self.faults.saturating_add(1);
        Err(DiskFault)
    }
}

/// Makes room for one version and adds it.
fn add(table: &mut Memtable, key: &[u8], sequence: u64, put: Option<&[u8]>) -> Result<(), Memory>
    ensures { table.new.direction ≡ table.old.direction }
{
    let bytes = key.len() + put.unwrap_or(&[]).len();
    table.reserve(1, bytes)?;
    table.insert(key, sequence, put);
    Ok(())
}

/// What is left of a cursor: each key and value, a `-` before a deletion.
fn walk<D: Disk, C: Cursor<D>>(
    alloc: Global,
    disk: &mut D,
    cursor: &mut C,
) -> Result<Vec<u8>, Stop> {
    let mut seen = Vec::new(alloc);
    'walking: while !cursor.at_end() {
        if !cursor.is_put() {
            seen.extend_from_slice(b"-")?;
        }
        seen.extend_from_slice(cursor.key())?;
        seen.extend_from_slice(b"=")?;
        seen.extend_from_slice(cursor.value())?;
        seen.extend_from_slice(b" ")?;
        cursor.next(disk)?;
    }
    Ok(seen)
}

/// Each letter as a key, with sequence numbers from 1 on; a capital is a deletion.
fn table_of(alloc: Global, direction: Direction, letters: &[u8]) -> Result<Memtable, Memory>
    ensures { Rattle.std.specs.Prelude.IfOk result (λ t. t.direction ≡ direction) }
{
    let mut table = Memtable::new(alloc, direction);
    let mut sequence = 0u64;
    'adding: for letter in letters {
        sequence = sequence.saturating_add(1);
        let key = [letter.to_ascii_lowercase()];
        if letter.is_ascii_uppercase() {
            add(&mut table, &key, sequence, None)?;
        } else {
            add(&mut table, &key, sequence, Some(&[*letter]))?;
        }
    }
    Ok(table)
}

fn walk_from(
    alloc: Global,
    direction: Direction,
    letters: &[u8],
    key: &[u8],
) -> Result<Vec<u8>, Stop> {
    let table = table_of(alloc, direction, letters)?;
    let mut disk = Unused { faults: 0 };
    let mut cursor = table.cursor();
    cursor.seek(&mut disk, key)?;
    walk(alloc, &mut disk, &mut cursor)
}

fn walk_at(alloc: Global, letters: &[u8], number: u64) -> Result<Vec<u8>, Stop> {
    let table = table_of(alloc, Direction::Forward, letters)?;
    let mut disk = Unused { faults: 0 };
    let mut cursor = AtSnapshot::new(alloc, table.cursor(), number);
    cursor.seek(&mut disk, b"")?;
    walk(alloc, &mut disk, &mut cursor)
}

fn walk_all(alloc: Global, direction: Direction, key: &[u8]) -> Result<Vec<u8>, Stop> {
    let first = table_of(alloc, direction, b"ace")?;
    let second = table_of(alloc, direction, b"bcC")?;
    let mut children = Vec::with_capacity(alloc, 2)?;
    match children.push(first.cursor()) {
        Ok(()) => {}
        Err(_) => return Err(Stop::Memory),
    }
    match children.push(second.cursor()) {
        Ok(()) => {}
        Err(_) => return Err(Stop::Memory),
    }
    let mut merge = Merge::new(children, direction)?;
    let mut disk = Unused { faults: 0 };
    merge.seek(&mut disk, key)?;
    walk(alloc, &mut disk, &mut merge)
}

/// A key, the same with a zero byte behind it, and the next key.
fn neighbours(alloc: Global, direction: Direction) -> Result<Memtable, Memory> {
    let mut table = Memtable::new(alloc, direction);
    add(&mut table, b"\x61", 1, Some(b""))?;
    add(&mut table, b"\x61\x00", 2, Some(b""))?;
    add(&mut table, b"\x62", 3, Some(b""))?;
    Ok(table)
}

fn walk_neighbours(alloc: Global, direction: Direction, key: &[u8]) -> Result<Vec<u8>, Stop> {
    let table = neighbours(alloc, direction)?;
    let mut disk = Unused { faults: 0 };
    let mut cursor = table.cursor();
    cursor.seek(&mut disk, key)?;
    walk(alloc, &mut disk, &mut cursor)
}

/// A key that is put at number 1 and deleted at number 2.
fn put_and_deleted(alloc: Global) -> Result<Memtable, Memory> {
    let mut table = Memtable::new(alloc, Direction::Forward);
    add(&mut table, b"\x61", 1, Some(b"\x01"))?;
    add(&mut table, b"\x61", 2, None)?;
    Ok(table)
}

fn walk_deleted(alloc: Global, number: u64) -> Result<Vec<u8>, Stop> {
    let table = put_and_deleted(alloc)?;
    let mut disk = Unused { faults: 0 };
    let mut cursor = AtSnapshot::new(alloc, table.cursor(), number);
    cursor.seek(&mut disk, b"")?;
    walk(alloc, &mut disk, &mut cursor)
}

/// How many versions are left, or None where their keys don't rise.
fn count_in_order<D: Disk, C: Cursor<D>>(
    alloc: Global,
    disk: &mut D,
    cursor: &mut C,
) -> Result<Option<u64>, Stop> {
    let mut last = Vec::new(alloc);
    let mut met = 0u64;
    'walking: while !cursor.at_end() {
        if last.as_slice() > cursor.key() {
            return Ok(None);
        }
        last.clear();
        last.extend_from_slice(cursor.key())?;
        met = met.saturating_add(1);
        cursor.next(disk)?;
    }
    Ok(Some(met))
}

/// The count of many keys that were added in a scrambled order, where they come out in order.
fn scrambled(alloc: Global, count: u64) -> Result<Option<u64>, Stop> {
    let mut table = Memtable::new(alloc, Direction::Forward);
    'adding: for i in 0..count {
        let key = (i.wrapping_mul(7919) % 4096).to_be_bytes();
        add(&mut table, &key, i, Some(b""))?;
    }
    let mut disk = Unused { faults: 0 };
    let mut cursor = table.cursor();
    count_in_order(alloc, &mut disk, &mut cursor)
}

#[test]
fn walks(rt: HostRuntime) -> Result<(), Fail> {
    use Direction::{Forward, Reverse};
    let alloc = rt.alloc();
    for (direction, letters, from, expected) in [
        (
            Forward,
            b"bca".as_slice(),
            b"".as_slice(),
            b"a=a b=b c=c ".as_slice(),
        ),
        (Reverse, b"bca", b"\xff", b"c=c b=b a=a "),
        (Reverse, b"bca", b"b", b"b=b a=a "),
        (Forward, b"bca", b"b\x00", b"c=c "),
        (Forward, b"abAa", b"", b"a=a -a= a=a b=b "),
        (Forward, b"", b"", b""),
    ] {
        let seen = walk_from(alloc, direction, letters, from);
        assert!(rt; seen.is_ok());
        let Ok(seen) = seen else { return Ok(()) };
        assert_eq!(rt; seen.as_slice(), expected);
    }
    Ok(())
}

#[test]
fn a_deleted_key_is_no_put(rt: HostRuntime) -> Result<(), Fail> {
    let alloc = rt.alloc();
    for (letters, number, expected) in [
        (b"aA".as_slice(), 0u64, b"".as_slice()),
        (b"aA", 1, b"a=a "),
        (b"aA", 2, b""),
        (b"abAca", 4, b"b=b c=c "),
        (b"abAca", 9, b"a=a b=b c=c "),
    ] {
        let seen = walk_at(alloc, letters, number);
        assert!(rt; seen.is_ok());
        let Ok(seen) = seen else { return Ok(()) };
        assert_eq!(rt; seen.as_slice(), expected);
    }
    Ok(())
}

#[test]
fn a_longer_key_is_behind_its_front(rt: HostRuntime) -> Result<(), Fail> {
    let alloc = rt.alloc();
    for (direction, from, expected) in [
        (
            Direction::Forward,
            b"".as_slice(),
            b"\x61= \x61\x00= \x62= ".as_slice(),
        ),
        (Direction::Reverse, b"\xff", b"\x62= \x61\x00= \x61= "),
    ] {
        let seen = walk_neighbours(alloc, direction, from);
        assert!(rt; seen.is_ok());
        let Ok(seen) = seen else { return Ok(()) };
        assert_eq!(rt; seen.as_slice(), expected);
    }
    Ok(())
}

#[test]
fn a_put_is_seen_until_it_is_deleted(rt: HostRuntime) -> Result<(), Fail> {
    let alloc = rt.alloc();
    for (number, expected) in [(0u64, b"".as_slice()), (1, b"\x61=\x01 "), (2, b"")] {
        let seen = walk_deleted(alloc, number);
        assert!(rt; seen.is_ok());
        let Ok(seen) = seen else { return Ok(()) };
        assert_eq!(rt; seen.as_slice(), expected);
    }
    Ok(())
}

#[test]
fn many_as_one(rt: HostRuntime) -> Result<(), Fail> {
    let alloc = rt.alloc();
    for (direction, from, expected) in [
        (
            Direction::Forward,
            b"".as_slice(),
            b"a=a b=b -c= c=c c=c e=e ".as_slice(),
        ),
        (Direction::Reverse, b"c", b"-c= c=c c=c b=b a=a "),
    ] {
        let seen = walk_all(alloc, direction, from);
        assert!(rt; seen.is_ok());
        let Ok(seen) = seen else { return Ok(()) };
        assert_eq!(rt; seen.as_slice(), expected);
    }
    Ok(())
}

#[test]
fn many_keys_in_any_order(rt: HostRuntime) -> Result<(), Fail> {
    let count = scrambled(rt.alloc(), 3000);
    assert!(rt; matches!(count, Ok(Some(3000))));
    Ok(())
}
