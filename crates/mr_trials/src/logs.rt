//! What the tests share: hosts with a log in their file 1.
use mr_base::Stop;
use mr_gate::GateLog;
use mr_memhost::MemHost;
use std::alloc::Global;

/// A length that no log here reaches.
pub const FAR: u64 = 1000;

/// A host whose file 1 has these bytes.
pub fn host_of(alloc: Global, bytes: &[u8]) -> Option<MemHost> {
    let mut host = MemHost::new(alloc);
    match host.add_file(1, bytes) {
        Ok(()) => Some(host),
        Err(_) => None,
    }
}

/// Opens the log in file 1, and adds a record with the one byte 9.
pub fn open_and_append(host: &mut MemHost) -> Result<u64, Stop> {
    let mut log = GateLog::open(host, 1, 0, FAR)?;
    log.append(host, &[9])
}

/// A host with a log of two records, with the bodies 1, 2, 3 and nothing.
pub fn two_records(alloc: Global) -> Result<MemHost, Stop> {
    let mut host = MemHost::new(alloc);
    let mut log = GateLog::open(&mut host, 1, 0, FAR)?;
    log.append(&mut host, &[1, 2, 3])?;
    log.append(&mut host, &[])?;
    Ok(host)
}
