//! The binary log of two commits: walked, counted, and added to.
use mr_base::{Memory, Stop};
use mr_binlog::{Binlog, write_commit};
use mr_memhost::MemHost;
use std::alloc::Global;
use std::test::Fail;

/// A table of two numbers and the row (1, 2), both at moment 7: two commits and a closed gate.
const LOG: [u8; 84] = [
    0xA7, 0, 0, 0, 0x25, 0, 0, 0, 0, 0, 0, 0, 7, 1, 1, 0x74, 2, 2, 0x69, 0x64, 3, 0, 0, 0, 0, 0, 1,
    0x76, 3, 0, 0, 0, 1, 1, 0, 1, 0, 0, 0, 0, 0, 0, 0xA7, 0, 0, 0, 0x24, 0, 0, 0, 0, 0, 0, 0, 7, 0,
    0, 0, 0, 1, 1, 1, 0x74, 0, 2, 1, 0, 0, 0, 0, 0, 0, 0, 1, 1, 0, 0, 0, 0, 0, 0, 0, 2, 0,
];

/// The second record stands here.
const SECOND: u64 = 42;

/// A length that no log here reaches.
const FAR: u64 = 1000;

/// A host whose file 1 has these bytes.
fn host_of(alloc: Global, bytes: &[u8]) -> Option<MemHost> {
    let mut host = MemHost::new(alloc);
    match host.add_file(1, bytes) {
        Ok(()) => Some(host),
        Err(_) => None,
    }
}

/// Where the commit at a place ends, if there is one, and whether it is written as it was read.
fn read_once(alloc: Global, from: u64, at: u64) -> Result<(Option<u64>, bool), Stop> {
    let Some(mut host) = host_of(alloc, &LOG) else {
        return Err(Stop::Memory);
    };
    let log = Binlog::open_from(&mut host, from, 0, FAR)?;
    let Some((commit, next)) = log.read(alloc, &mut host, at)? else {
        return Ok((None, true));
    };
    let body = write_commit(alloc, &commit)?;
    let is_same = LOG.get(at as usize + 5..next as usize) == Some(body.as_slice());
    Ok((Some(next), is_same))
}

/// How many commits there are, of which so many are in front of a place, and where they end.
fn counted(alloc: Global, from: u64, before: u64) -> Result<(u64, u64), Stop> {
    if before > from {
        return Ok((0, 0));
    }
    let Some(mut host) = host_of(alloc, &LOG) else {
        return Err(Stop::Memory);
    };
    let log = Binlog::open_from(&mut host, from, before, FAR)?;
    Ok((log.commits(), log.end()))
}

/// What adding the row once more answers where the log is not to pass a limit, and whether `room` said
/// the same.
fn added(alloc: Global, limit: u64) -> Result<(Option<u64>, bool), Stop> {
    let Some(mut host) = host_of(alloc, &LOG) else {
        return Err(Stop::Memory);
    };
    let mut log = Binlog::open_from(&mut host, SECOND, 1, limit)?;
    let room = log.room(36);
    let answer = log.append(&mut host, &LOG[47..83]);
    let is_same = match (room, answer) {
        (Ok(()), Ok(_)) => log.is_open(),
        (Err(a), Err(b)) => a == b && !log.is_open(),
        _ => false,
    };
    Ok((answer.ok(), is_same))
}

/// Where reading the first commit stops, once this byte has another value.
fn damage(alloc: Global, at: usize, byte: u8) -> Result<Option<Stop>, Memory> {
    let mut bytes = LOG;
    if let Some(place) = bytes.get_mut(at) {
        *place = byte;
    }
    let Some(mut host) = host_of(alloc, &bytes) else {
        return Err(Memory);
    };
    match Binlog::open_from(&mut host, 0, 0, FAR) {
        Ok(log) => Ok(log.read(alloc, &mut host, 0).err()),
        Err(stop) => Ok(Some(stop)),
    }
}

#[test]
fn two_commits(rt: HostRuntime) -> Result<(), Fail> {
    let alloc = rt.alloc();
    for (from, at, next) in [
        (0, 0, Some(SECOND)),
        (0, SECOND, Some(83)),
        (SECOND, SECOND, Some(83)),
        (SECOND, 83, None),
        (83, 83, None),
    ] {
        let read = read_once(alloc, from, at);
        assert_eq!(rt; read, Ok((next, true)));
    }
    Ok(())
}

#[test]
fn commits_are_counted(rt: HostRuntime) -> Result<(), Fail> {
    let alloc = rt.alloc();
    for (from, before, count) in [(0, 0, 2), (SECOND, 1, 2), (SECOND, 9, 10), (83, 2, 2)] {
        let counted = counted(alloc, from, before);
        assert_eq!(rt; counted, Ok((count, 83)));
    }
    Ok(())
}

#[test]
fn room_is_told(rt: HostRuntime) -> Result<(), Fail> {
    let alloc = rt.alloc();
    for (limit, number) in [
        (FAR, Some(3)),
        (125, Some(3)),
        (124, None),
        (84, None),
        (3, None),
    ] {
        let told = added(alloc, limit);
        assert_eq!(rt; told, Ok((number, true)));
    }
    Ok(())
}

/// A byte of the first commit, what stands there instead, and where that offends: another kind of commit, no byte of a
/// name, another kind of column; a longer name, a part of a key more and a longer comment, behind which other fields
/// offend.
const CHANGES: [(usize, u8, u64); 6] = [
    (13, 5, 13),
    (14, 0, 14),
    (20, 7, 20),
    (26, 2, 29),
    (35, 2, 41),
    (41, 1, 40),
];

#[test]
fn no_commit_is_damage_at_its_offence(rt: HostRuntime) -> Result<(), Fail> {
    for (at, byte, place) in CHANGES {
        let stop = Stop::Damaged { file: 1, at: place };
        assert_eq!(rt; damage(rt.alloc(), at, byte), Ok(Some(stop)));
    }
    Ok(())
}
