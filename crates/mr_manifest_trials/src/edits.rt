//! Edits that are appended and read back, and the rule on numbers.
use crate::files::{
    ADDED, BEGUN, host_of, numbers_of, only_run, open_and_append, run_in, second_record,
};
use mr_base::Stop;
use mr_manifest::{Edit, Manifest, first_record, peek};
use mr_memhost::MemHost;
use std::alloc::Global;
use std::test::Fail;

/// Whether a manifest with these bytes has exactly these ones once a record of these edits is added.
fn is_added(alloc: Global, bytes: &[u8], edits: &[Edit], after: &[u8]) -> Result<bool, Stop> {
    let mut host = host_of(alloc, bytes)?;
    open_and_append(alloc, &mut host, edits)?;
    Ok(host.file(0) == after)
}

/// What is live by these bytes: its numbers, and the run where there is exactly one.
type Told = ([u64; 6], Option<[u64; 5]>);

/// By an opening.
fn opened(alloc: Global, host: &mut MemHost) -> Result<Told, Stop> {
    let manifest = Manifest::open(alloc, host)?;
    let live = manifest.live();
    Ok((numbers_of(live), only_run(live)))
}

/// By a reader that leaves the manifest as it is.
fn peeked(alloc: Global, host: &mut MemHost) -> Result<Told, Stop> {
    let live = peek(alloc, host)?;
    Ok((numbers_of(&live), only_run(&live)))
}

/// What is live once a record of these edits is added, by the manifest that they were added to.
fn appended(alloc: Global, host: &mut MemHost, edits: &[Edit]) -> Result<Told, Stop> {
    let mut manifest = Manifest::open(alloc, host)?;
    manifest.append(alloc, host, edits)?;
    let live = manifest.live();
    Ok((numbers_of(live), only_run(live)))
}

/// The same behind `ADDED`, where a reader and an opening tell it too.
fn live_after(alloc: Global, edits: &[Edit]) -> Result<Option<Told>, Stop> {
    let mut host = host_of(alloc, &ADDED)?;
    let told = appended(alloc, &mut host, edits)?;
    let is_same = peeked(alloc, &mut host)? == told && opened(alloc, &mut host)? == told;
    Ok(is_same.then_some(told))
}

/// What reading answers once a record of these edits stands behind `ADDED`.
fn refused(alloc: Global, edits: &[Edit]) -> Result<Option<Stop>, Stop> {
    let mut host = host_of(alloc, &ADDED)?;
    open_and_append(alloc, &mut host, edits)?;
    let told = peeked(alloc, &mut host).err();
    let is_same = opened(alloc, &mut host).err() == told;
    Ok(if is_same { told } else { None })
}

/// Behind `ADDED` a record stands here.
const THIRD: u64 = 98;

/// The run of `ADDED`.
const RUN: [u64; 5] = [2, 1, 17, 300, 5];

#[test]
fn an_empty_folder_is_begun(rt: HostRuntime) -> Result<(), Fail> {
    let alloc = rt.alloc();
    assert_eq!(rt; is_added(alloc, &[], &first_record(), &BEGUN), Ok(true));
    Ok(())
}

#[test]
fn an_opening_of_nothing_closes_the_gate(rt: HostRuntime) -> Result<(), Fail> {
    let alloc = rt.alloc();
    let mut host = MemHost::new(alloc);
    let told = opened(alloc, &mut host);
    assert_eq!(rt; told, Ok(([0; 6], None)));
    assert!(rt; host.file(0) == [0].as_slice());
    Ok(())
}

#[test]
fn edits_are_one_record(rt: HostRuntime) -> Result<(), Fail> {
    let alloc = rt.alloc();
    assert_eq!(rt; is_added(alloc, &BEGUN, &second_record(), &ADDED), Ok(true));
    Ok(())
}

#[test]
fn live_is_what_the_edits_add_up_to(rt: HostRuntime) -> Result<(), Fail> {
    let alloc = rt.alloc();
    let nothing = live_after(alloc, &[]);
    assert_eq!(rt; nothing, Ok(Some(([16, 0, 0, 18, 0, 1], Some(RUN)))));
    let dropped = live_after(alloc, &[Edit::RunDropped(17)]);
    assert_eq!(rt; dropped, Ok(Some(([16, 0, 0, 18, 0, 1], None))));
    let flushed = [Edit::LiveLog(18), Edit::NextFile(19), Edit::LastSequence(7)];
    let moved = live_after(alloc, &flushed);
    assert_eq!(rt; moved, Ok(Some(([18, 0, 0, 19, 7, 1], Some(RUN)))));
    let place = Edit::BinlogPlace {
        place: 84,
        commits: 2,
    };
    let placed = live_after(alloc, &[place]);
    assert_eq!(rt; placed, Ok(Some(([16, 84, 2, 18, 0, 1], Some(RUN)))));
    Ok(())
}

/// The last record is refused at its place.
const REFUSED: Result<Option<Stop>, Stop> = Ok(Some(Stop::Damaged { file: 0, at: THIRD }));

/// A run's number once more, or the log's; one that isn't given yet; a run's for the log.
#[test]
fn a_live_number_twice_is_refused(rt: HostRuntime) -> Result<(), Fail> {
    let alloc = rt.alloc();
    for file in [15, 16, 17, 18] {
        assert_eq!(rt; refused(alloc, &[run_in(file)]), REFUSED);
    }
    assert_eq!(rt; refused(alloc, &[Edit::LiveLog(17)]), REFUSED);
    Ok(())
}

/// The live log; a file with a number below 16.
#[test]
fn a_file_in_use_is_not_dropped(rt: HostRuntime) -> Result<(), Fail> {
    let alloc = rt.alloc();
    for file in [16, 15] {
        assert_eq!(rt; refused(alloc, &[Edit::RunDropped(file)]), REFUSED);
    }
    assert_eq!(rt; refused(alloc, &[Edit::RunDropped(17)]), Ok(None));
    Ok(())
}

/// A run that is dropped and added again in one record is in use behind it.
#[test]
fn what_a_record_drops_is_not_live_behind_it(rt: HostRuntime) -> Result<(), Fail> {
    let alloc = rt.alloc();
    let again = [run_in(17), Edit::RunDropped(17), run_in(17)];
    assert_eq!(rt; refused(alloc, &again), REFUSED);
    Ok(())
}

/// What is live by `ADDED` with a record that uses the run's number twice, and one that drops it.
fn mended(alloc: Global) -> Result<Told, Stop> {
    let mut host = host_of(alloc, &ADDED)?;
    let mut manifest = Manifest::open(alloc, &mut host)?;
    manifest.append(alloc, &mut host, &[run_in(17)])?;
    manifest.append(alloc, &mut host, &[Edit::RunDropped(17)])?;
    peeked(alloc, &mut host)
}

#[test]
fn the_rule_is_judged_behind_the_last_record(rt: HostRuntime) -> Result<(), Fail> {
    let told = mended(rt.alloc());
    assert_eq!(rt; told, Ok(([16, 0, 0, 18, 0, 1], None)));
    Ok(())
}
