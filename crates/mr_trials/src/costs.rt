//! The calls that openings, appends and reads make.
use crate::logs::{FAR, two_records};
use mr_base::Stop;
use mr_gate::GateLog;
use std::test::Fail;

#[test]
fn an_append_reads_nothing_and_syncs_twice(rt: HostRuntime) -> Result<(), Fail> {
    let host = two_records(rt.alloc());
    assert!(rt; host.is_ok());
    let Ok(mut host) = host else { return Ok(()) };
    let before = [host.reads(), host.asked()];
    let log = GateLog::open(&mut host, 1, 0, FAR);
    assert!(rt; log.is_ok());
    let Ok(mut log) = log else { return Ok(()) };
    let opened = [host.reads(), host.asked(), host.syncs()];
    assert!(rt; opened[0] <= before[0].saturating_add(3));
    assert!(rt; opened[1] <= before[1].saturating_add(15));
    assert_eq!(rt; log.append(&mut host, &[4]), Ok(13));
    let added = [host.reads(), host.asked(), host.syncs()];
    assert_eq!(rt; added, [opened[0], opened[1], opened[2].saturating_add(2)]);
    Ok(())
}

#[test]
fn records_are_read_in_turn(rt: HostRuntime) -> Result<(), Fail> {
    let host = two_records(rt.alloc());
    assert!(rt; host.is_ok());
    let Ok(mut host) = host else { return Ok(()) };
    let log = GateLog::open(&mut host, 1, 0, FAR);
    assert!(rt; log.is_ok());
    let Ok(log) = log else { return Ok(()) };
    let first = log.read_record(rt.alloc(), &mut host, 0);
    assert!(rt; matches!(&first, Ok(Some((body, 8))) if body.as_slice() == [1, 2, 3].as_slice()));
    let second = log.read_record(rt.alloc(), &mut host, 8);
    assert!(rt; matches!(&second, Ok(Some((body, 13))) if body.is_empty()));
    let end = log.read_record(rt.alloc(), &mut host, 13);
    assert!(rt; matches!(&end, Ok(None)));
    Ok(())
}

#[test]
fn a_place_inside_a_record_is_damage(rt: HostRuntime) -> Result<(), Fail> {
    let host = two_records(rt.alloc());
    assert!(rt; host.is_ok());
    let Ok(mut host) = host else { return Ok(()) };
    let log = GateLog::open(&mut host, 1, 0, FAR);
    assert!(rt; log.is_ok());
    let Ok(log) = log else { return Ok(()) };
    let inside = log.read_record(rt.alloc(), &mut host, 1);
    assert!(rt; matches!(&inside, Err(Stop::Damaged { file: 1, at: 1 })));
    Ok(())
}
