//! Calls that fail where they are to, the images of a crash, a source and a clock.
use mr_base::{Clock, Disk, DiskFault, EmitFault, Host, Source, SourceFault};
use mr_memhost::{Choice, ListClock, MemHost, MemSource};
use std::alloc::Global;
use std::test::Fail;

/// A host whose file 1 has these bytes.
fn host_of(alloc: Global, bytes: &[u8]) -> Option<MemHost> {
    let mut host = MemHost::new(alloc);
    match host.add_file(1, bytes) {
        Ok(()) => Some(host),
        Err(_) => None,
    }
}

/// A write or a cut of file 1, which is refused past the end.
fn write(host: &mut MemHost, at: u64, bytes: &[u8]) -> Result<(), DiskFault> {
    if host.file(1).len() < at as usize {
        return Err(DiskFault);
    }
    host.write_at(1, at, bytes)
}

fn cut(host: &mut MemHost, to: u64) -> Result<(), DiskFault> {
    if host.file(1).len() < to as usize {
        return Err(DiskFault);
    }
    host.cut(1, to)
}

#[test]
fn calls_fail_where_listed_and_after_the_stop(rt: HostRuntime) -> Result<(), Fail> {
    let host = host_of(rt.alloc(), b"abcd");
    assert!(rt; host.is_some());
    let Some(mut host) = host else { return Ok(()) };
    assert_eq!(rt; host.fail_calls(&[2, 4]), Ok(()));
    host.stop_after(6);
    assert_eq!(rt; host.length(1), Ok(4));
    assert_eq!(rt; write(&mut host, 4, b"e"), Err(DiskFault));
    assert_eq!(rt; write(&mut host, 4, b"e"), Ok(()));
    assert_eq!(rt; host.emit(b"out"), Err(EmitFault));
    assert_eq!(rt; host.emit(b"out"), Ok(3));
    let mut out = [0; 4];
    assert_eq!(rt; host.read(1, 2, &mut out), Ok(3));
    assert_eq!(rt; out, *b"cde\0");
    assert_eq!(rt; host.sync(1), Err(DiskFault));
    assert_eq!(rt; host.read(1, 2, &mut out), Err(DiskFault));
    assert!(rt; host.output() == b"out".as_slice());
    let counts = [
        host.calls(),
        host.faults(),
        host.emit_faults(),
        host.reads(),
        host.asked(),
        host.syncs(),
    ];
    assert_eq!(rt; counts, [8, 3, 1, 2, 8, 1]);
    Ok(())
}

/// What a crash leaves after a write that is torn, cut back and overtaken by another.
fn crashed(alloc: Global, choice: Choice) -> Option<MemHost> {
    let mut host = host_of(alloc, b"abcdef")?;
    let is_done = write(&mut host, 0, b"a").is_ok()
        && host.sync(1).is_ok()
        && write(&mut host, 2, b"XY").is_ok()
        && cut(&mut host, 5).is_ok()
        && write(&mut host, 5, b"!").is_ok()
        && host.emit(b"out").is_ok();
    if !is_done {
        return None;
    }
    match host.crash(choice) {
        Ok(host) => Some(host),
        Err(_) => None,
    }
}

#[test]
fn a_crash_leaves_what_is_chosen(rt: HostRuntime) -> Result<(), Fail> {
    let cases: [(Choice, [u8; 6]); 4] = [
        (Choice::Keep, *b"abXYe!"),
        (Choice::Drop, *b"abcdef"),
        (Choice::Fill(0), *b"ab\0\0e\0"),
        (Choice::Fill(b'-'), *b"ab--e-"),
    ];
    for (choice, expected) in cases {
        let host = crashed(rt.alloc(), choice);
        assert!(rt; host.is_some());
        let Some(mut host) = host else { return Ok(()) };
        assert!(rt; host.file(1) == expected.as_slice());
        assert!(rt; host.output() == b"out".as_slice());
        assert_eq!(rt; host.calls(), 0);
        assert_eq!(rt; host.length(2), Ok(0));
    }
    Ok(())
}

#[test]
fn a_source_gives_pieces_and_fails_once(rt: HostRuntime) -> Result<(), Fail> {
    let source = MemSource::new(rt.alloc(), b"abcde", 2, Some(2));
    assert!(rt; source.is_ok());
    let Ok(mut source) = source else {
        return Ok(())
    };
    let mut out = [0; 4];
    assert_eq!(rt; source.take(&mut out), Ok(2));
    assert_eq!(rt; source.take(&mut out), Err(SourceFault));
    assert_eq!(rt; source.take(&mut out), Ok(2));
    assert_eq!(rt; out, *b"cd\0\0");
    assert_eq!(rt; source.take(&mut out), Ok(1));
    assert_eq!(rt; source.take(&mut out), Ok(0));
    Ok(())
}

#[test]
fn a_clock_repeats_its_last_value(rt: HostRuntime) -> Result<(), Fail> {
    let clock = ListClock::new(rt.alloc(), &[3, 5]);
    assert!(rt; clock.is_ok());
    let Ok(mut clock) = clock else { return Ok(()) };
    assert_eq!(rt; [clock.now(), clock.now(), clock.now()], [3, 5, 5]);
    let none = ListClock::new(rt.alloc(), &[]);
    assert!(rt; none.is_ok());
    let Ok(mut none) = none else { return Ok(()) };
    assert_eq!(rt; none.now(), 0);
    Ok(())
}
