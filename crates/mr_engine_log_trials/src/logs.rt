//! Logs by scripts: for each record its verdict and its kind, p for a prepare, w for a plain batch, d for a decision. Commits and sequence
//! numbers count from 1.
use mr_base::{Disk, Memory, Stop};
use mr_engine_log::{Batched, LogReader};
use mr_memhost::MemHost;
use std::alloc::Global;
use std::test::Fail;

/// The file of the log.
const LOG: u64 = 16;

/// What stands in a record behind its numbers: a count of one, and the put of a value of one byte for a key of one byte in family 1.
const BATCH: &[u8] = &[
    0, 0, 0, 1, 0, 0, 0, 1, 1, 0, 0, 0, 1, b'k', 0, 0, 0, 1, b'v',
];

fn add(out: &mut Vec<u8>, bytes: &[u8]) -> Result<(), Memory> {
    match out.extend_from_slice(bytes) {
        Ok(()) => Ok(()),
        Err(_) => Err(Memory),
    }
}

/// A record's gate, length, verdict and kind, and its numbers, each below 256.
fn add_record(
    out: &mut Vec<u8>,
    verdict: u8,
    kind: u8,
    commit: u8,
    sequence: u8,
) -> Result<(), Memory> {
    match kind {
        b'p' => {
            add(out, &[0xA7, 0, 0, 0, 37, verdict, 1])?;
            add(out, &[0, 0, 0, 0, 0, 0, 0, commit])?;
            add(out, &[0, 0, 0, 0, 0, 0, 0, sequence])?;
            add(out, BATCH)
        }
        b'w' => {
            add(out, &[0xA7, 0, 0, 0, 29, verdict, 2])?;
            add(out, &[0, 0, 0, 0, 0, 0, 0, sequence])?;
            add(out, BATCH)
        }
        _ => add(out, &[0xA7, 0, 0, 0, 2, verdict, 3]),
    }
}

/// The bytes of a log.
fn log_of(alloc: Global, script: &[u8]) -> Result<Vec<u8>, Memory> {
    let mut out = Vec::new(alloc);
    let mut commit = 0u8;
    let mut sequence = 0u8;
    for record in script.chunks_exact(2) {
        if record[1] == b'p' {
            commit = commit.saturating_add(1);
        }
        if record[1] != b'd' {
            sequence = sequence.saturating_add(1);
        }
        add_record(
            &mut out,
            record[0].saturating_sub(b'0'),
            record[1],
            commit,
            sequence,
        )?;
    }
    add(&mut out, &[0])?;
    Ok(out)
}

/// A number below 255, or 255.
fn low(number: u64) -> u8 {
    number.min(255) as u8
}

/// A batch that counts: its commit, 0 for a plain one, and its sequence number.
fn add_batch(out: &mut Vec<u8>, batch: &Option<Batched>) -> Result<(), Memory> {
    match batch {
        Some(batch) => add(out, &[low(batch.commit.unwrap_or(0)), low(batch.sequence)]),
        None => Ok(()),
    }
}

/// What the records make count, with 255 behind each record.
fn read_all<D: Disk>(alloc: Global, disk: &mut D, out: &mut Vec<u8>) -> Result<(), Stop> {
    let mut reader = LogReader::begin(alloc, disk, LOG, 0)?;
    'reading: while let Some(counted) = reader.next(alloc, disk)? {
        add_batch(out, &counted.committed)?;
        add_batch(out, &counted.plain)?;
        add(out, &[255])?;
    }
    Ok(())
}

/// Whether the file, with one byte changed where there is one to change, leaves this, and ends in this damage where there is one.
fn leaves(
    alloc: Global,
    script: &[u8],
    change: Option<(usize, u8)>,
    expected: &[u8],
    damage: Option<u64>,
) -> Result<bool, Memory> {
    let mut bytes = log_of(alloc, script)?;
    if let Some((at, byte)) = change {
        if at < bytes.len() {
            bytes[at] = byte;
        }
    }
    let mut host = MemHost::new(alloc);
    host.add_file(LOG, &bytes)?;
    let mut out = Vec::new(alloc);
    let answer = read_all(alloc, &mut host, &mut out);
    let stopped = match answer {
        Ok(()) => None,
        Err(Stop::Damaged { file: 16, at }) => Some(at),
        Err(_) => Some(u64::MAX),
    };
    Ok(out.as_slice() == expected && stopped == damage)
}

#[test]
fn batches_count_by_their_verdicts(rt: HostRuntime) -> Result<(), Fail> {
    let alloc = rt.alloc();
    assert_eq!(rt; leaves(alloc, b"", None, &[], None), Ok(true));
    assert_eq!(rt;
        leaves(alloc, b"0w0w", None, &[0, 1, 255, 0, 2, 255], None),
        Ok(true)
    );
    assert_eq!(rt;
        leaves(alloc, b"0p1w", None, &[255, 1, 1, 0, 2, 255], None),
        Ok(true)
    );
    assert_eq!(rt;
        leaves(alloc, b"0p2w", None, &[255, 0, 2, 255], None),
        Ok(true)
    );
    assert_eq!(rt;
        leaves(alloc, b"0p1p2d", None, &[255, 1, 1, 255, 255], None),
        Ok(true)
    );
    Ok(())
}

#[test]
fn the_first_offence_is_told(rt: HostRuntime) -> Result<(), Fail> {
    let alloc = rt.alloc();
    // A verdict on nothing, one that is missing, and one that is none.
    assert_eq!(rt; leaves(alloc, b"1w", None, &[], Some(5)), Ok(true));
    assert_eq!(rt; leaves(alloc, b"0p0w", None, &[255], Some(47)), Ok(true));
    assert_eq!(rt; leaves(alloc, b"0p3w", None, &[255], Some(47)), Ok(true));
    // A kind that is none, and an operation that is neither a put nor a deletion.
    assert_eq!(rt; leaves(alloc, b"0w", Some((6, 9)), &[], Some(6)), Ok(true));
    assert_eq!(rt;
        leaves(alloc, b"0w", Some((23, 7)), &[], Some(23)),
        Ok(true)
    );
    Ok(())
}

#[test]
fn damage_of_the_log_comes_first(rt: HostRuntime) -> Result<(), Fail> {
    let alloc = rt.alloc();
    // The first record's verdict is on nothing, and the last record's length passes the file's end.
    assert_eq!(rt;
        leaves(alloc, b"1w0d", Some((38, 9)), &[], Some(34)),
        Ok(true)
    );
    assert_eq!(rt;
        leaves(alloc, b"0w0d", Some((38, 9)), &[0, 1, 255], Some(34)),
        Ok(true)
    );
    Ok(())
}
