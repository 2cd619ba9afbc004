//! Records that a log's limit has no room for.
use crate::logs::host_of;
use mr_base::{FullKind, Stop};
use mr_gate::GateLog;
use std::test::Fail;

#[test]
fn full_comes_before_any_write(rt: HostRuntime) -> Result<(), Fail> {
    let host = host_of(rt.alloc(), &[0]);
    assert!(rt; host.is_some());
    let Some(mut host) = host else { return Ok(()) };
    let log = GateLog::open(&mut host, 1, 0, 8);
    assert!(rt; log.is_ok());
    let Ok(mut log) = log else { return Ok(()) };
    let calls = host.calls();
    let full = Stop::Full {
        what: FullKind::Log(1),
        at: 1,
        limit: 8,
    };
    assert_eq!(rt; log.append(&mut host, &[1, 2, 3]), Err(full));
    assert!(rt; !log.is_open());
    assert_eq!(rt; host.calls(), calls);
    assert!(rt; host.file(1) == [0].as_slice());
    Ok(())
}

#[test]
fn a_record_may_reach_the_limit(rt: HostRuntime) -> Result<(), Fail> {
    let host = host_of(rt.alloc(), &[0]);
    assert!(rt; host.is_some());
    let Some(mut host) = host else { return Ok(()) };
    let log = GateLog::open(&mut host, 1, 0, 9);
    assert!(rt; log.is_ok());
    let Ok(mut log) = log else { return Ok(()) };
    assert_eq!(rt; log.append(&mut host, &[1, 2, 3]), Ok(0));
    assert!(rt; log.is_open());
    assert!(rt; host.file(1) == [0xA7, 0, 0, 0, 3, 1, 2, 3, 0].as_slice());
    Ok(())
}
