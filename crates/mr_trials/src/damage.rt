//! What an opening finds in files that are cut short or went bad.
use crate::logs::{FAR, host_of, two_records};
use mr_base::Stop;
use mr_gate::GateLog;
use std::alloc::Global;
use std::test::Fail;

/// How many records a file has from a place on, and where they end; or the place of damage.
fn walked(bytes: &[u8], from: usize) -> Result<(u64, usize), usize> {
    let mut at = from;
    let mut records = 0;
    if bytes.is_empty() && at == 0 {
        return Ok((0, 0));
    }
    while at < bytes.len() {
        match &bytes[at..] {
            [0xA7, a, b, c, d, behind @ ..] => {
                let size = u32::from_be_bytes([*a, *b, *c, *d]) as usize;
                if size > 1 << 29 || behind.len() <= size {
                    return Err(at);
                }
                at += 5 + size;
                records += 1;
            }
            [0xA7, _, ..] => return Err(at),
            _ => return Ok((records, at)),
        }
    }
    Err(at)
}

/// Whether an opening of a file with these bytes, and one after it, answer what they are to, and leave what they are to.
fn is_right(alloc: Global, bytes: &[u8], from: usize) -> bool {
    let Some(mut host) = host_of(alloc, bytes) else {
        return false;
    };
    match (
        GateLog::open(&mut host, 1, from as u64, FAR),
        walked(bytes, from),
    ) {
        (Ok(log), Ok((records, end))) => {
            let is_closed = match (host.file(1), bytes.get(..end)) {
                ([kept @ .., 0], Some(front)) => kept == front,
                _ => false,
            };
            let is_same = match GateLog::open(&mut host, 1, from as u64, FAR) {
                Ok(again) => again.end() == log.end() && again.records() == records,
                Err(_) => false,
            };
            is_closed && is_same && log.records() == records && log.end() == end as u64
        }
        (Err(stop), Err(at)) => {
            stop == Stop::Damaged {
                file: 1,
                at: at as u64,
            } && host.file(1) == bytes
                && host.syncs() == 0
        }
        _ => false,
    }
}

/// Whether that holds of these bytes, and with each byte behind them.
fn is_right_with_each_next(alloc: Global, front: &[u8], from: usize) -> bool {
    let Ok(mut bytes) = front.to_vec(alloc) else {
        return false;
    };
    let mut is_all_right = is_right(alloc, &bytes, from);
    for next in 0..=255 {
        if bytes.push(next).is_err() {
            return false;
        }
        is_all_right = is_all_right && is_right(alloc, &bytes, from);
        let _ = bytes.pop();
    }
    is_all_right
}

#[test]
fn every_prefix_and_every_next_gate(rt: HostRuntime) -> Result<(), Fail> {
    let host = two_records(rt.alloc());
    assert!(rt; host.is_ok());
    let Ok(host) = host else { return Ok(()) };
    let bytes = host.file(1);
    assert!(rt; bytes == [0xA7, 0, 0, 0, 3, 1, 2, 3, 0xA7, 0, 0, 0, 0, 0].as_slice());
    for length in 0..15 {
        assert!(rt; is_right_with_each_next(rt.alloc(), &bytes[..length], 0));
        assert!(rt; is_right_with_each_next(rt.alloc(), &bytes[..length], 8));
    }
    Ok(())
}

#[test]
fn three_bytes_behind_an_open_gate_are_damage(rt: HostRuntime) -> Result<(), Fail> {
    for bytes in [[0xA7, 0, 0, 0], [0xA7, 0, 0, 1], [0xA7, 0xA7, 0xA7, 0xA7]] {
        let host = host_of(rt.alloc(), &bytes);
        assert!(rt; host.is_some());
        let Some(mut host) = host else { return Ok(()) };
        let opened = GateLog::open(&mut host, 1, 0, FAR);
        assert!(rt; opened.is_err_and(|stop| stop == Stop::Damaged { file: 1, at: 0 }));
        assert!(rt; host.file(1) == bytes.as_slice());
        assert_eq!(rt; host.syncs(), 0);
    }
    Ok(())
}
