//! What the tests share: hosts with a manifest in their file 0.
use mr_base::{Memory, Stop};
use mr_manifest::{Edit, Live, Manifest};
use mr_memhost::MemHost;
use std::alloc::Global;

/// The manifest of a folder that was begun.
pub const BEGUN: [u8; 55] = [
    0xA7, 0, 0, 0, 0x31, 7, 0, 0, 0, 1, 3, 0, 0, 0, 0, 0, 0, 0, 0x10, 4, 0, 0, 0, 0, 0, 0, 0, 0, 0,
    0, 0, 0, 0, 0, 0, 0, 5, 0, 0, 0, 0, 0, 0, 0, 0x11, 6, 0, 0, 0, 0, 0, 0, 0, 0, 0,
];

/// And with a record behind it, which adds a run of family 2 and level 1 in file 17, of 300 bytes and 5 entries, and
/// tells that the next file is 18.
pub const ADDED: [u8; 99] = [
    0xA7, 0, 0, 0, 0x31, 7, 0, 0, 0, 1, 3, 0, 0, 0, 0, 0, 0, 0, 0x10, 4, 0, 0, 0, 0, 0, 0, 0, 0, 0,
    0, 0, 0, 0, 0, 0, 0, 5, 0, 0, 0, 0, 0, 0, 0, 0x11, 6, 0, 0, 0, 0, 0, 0, 0, 0, 0xA7, 0, 0, 0,
    0x27, 1, 0, 0, 0, 2, 1, 0, 0, 0, 0, 0, 0, 0, 0x11, 0, 0, 0, 0, 0, 0, 1, 0x2C, 0, 0, 0, 0, 0, 0,
    0, 5, 5, 0, 0, 0, 0, 0, 0, 0, 0x12, 0,
];

/// The edits of the second record of `ADDED`.
pub fn second_record() -> [Edit; 2] {
    [run_in(17), Edit::NextFile(18)]
}

/// A run of family 2 and level 1, of 300 bytes and 5 entries.
pub fn run_in(file: u64) -> Edit {
    Edit::RunAdded {
        family: 2,
        level: 1,
        file,
        length: 300,
        entries: 5,
    }
}

/// A host whose file 0 has these bytes.
pub fn host_of(alloc: Global, bytes: &[u8]) -> Result<MemHost, Memory> {
    let mut host = MemHost::new(alloc);
    host.add_file(0, bytes)?;
    Ok(host)
}

/// Opens the manifest, and adds a record of these edits.
pub fn open_and_append(alloc: Global, host: &mut MemHost, edits: &[Edit]) -> Result<(), Stop> {
    let mut manifest = Manifest::open(alloc, host)?;
    manifest.append(alloc, host, edits)
}

/// The live log, the place in the binary log, the commits before it, the next file, the last sequence number and the
/// format.
pub fn numbers_of(live: &Live) -> [u64; 6] {
    [
        live.log,
        live.place,
        live.commits,
        live.next_file,
        live.last_sequence,
        live.format as u64,
    ]
}

/// The family, level, file, length and entries of the run, where there is exactly one.
pub fn only_run(live: &Live) -> Option<[u64; 5]> {
    match live.runs.as_slice() {
        [run] => Some([
            run.family as u64,
            run.level as u64,
            run.file,
            run.length,
            run.entries,
        ]),
        _ => None,
    }
}
