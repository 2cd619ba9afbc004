//! A host that tells nothing and fails at each call: the clauses that hold of every host are met by it.
ghost use Rattle.std.specs.Prelude.{false, []};
ghost use mathlib.Core.Bool.{true≢false};
ghost use Rattle.std.proofs.Common.{sym};
ghost use Rattle.mr_base.specs.Disk.{at_rest};

use mr_base::{Blob, Disk, DiskFault, EmitFault, Host};
use std::test::Fail;

#[derive(Drop)]
struct Broken {
    faults: u64,
    emit_faults: u64,
}

impl Disk for Broken {
    ghost disk = { λ b. record { tells = false; moments = λ k. record { files = λ f. at_rest []; output = [] }; now = 0; faults = b.faults; emit_faults = b.emit_faults; reads = 0; asked = 0; syncs = 0 } };

    ghost read_may_be_left = { λ b file tells. absurd (true≢false (sym tells)) };

    fn read(&mut self, _: u64, _: u64, _: &mut [u8]) -> Result<usize, DiskFault> {
        self.faults = self.faults.saturating_add(1);
        Err(DiskFault)
    }

    fn write_at(&mut self, _: u64, _: u64, _: &[u8]) -> Result<(), DiskFault> {
        self.faults = self.faults.saturating_add(1);
        Err(DiskFault)
    }

    fn cut(&mut self, _: u64, _: u64) -> Result<(), DiskFault> {
        self.faults = self.faults.saturating_add(1);
        Err(DiskFault)
    }

    fn sync(&mut self, _: u64) -> Result<(), DiskFault> {
        self.faults = self.faults.saturating_add(1);
        Err(DiskFault)
    }

    fn length(&mut self, _: u64) -> Result<u64, DiskFault> {
        self.faults = self.faults.saturating_add(1);
        Err(DiskFault)
    }
}

impl Host for Broken {
    fn emit(&mut self, _: &[u8]) -> Result<usize, EmitFault> {
        self.emit_faults = self.emit_faults.saturating_add(1);
        Err(EmitFault)
    }
}

#[test]
fn a_host_that_tells_nothing(rt: HostRuntime) -> Result<(), Fail> {
    let mut host = Broken {
        faults: 0,
        emit_faults: u64::MAX,
    };
    assert_eq!(rt; host.length(1), Err(DiskFault));
    assert_eq!(rt; host.write_at(1, 0, &[1]), Err(DiskFault));
    assert_eq!(rt; host.cut(1, 0), Err(DiskFault));
    assert_eq!(rt; host.sync(1), Err(DiskFault));
    assert_eq!(rt; host.read(1, 0, &mut [0; 4]), Err(DiskFault));
    assert_eq!(rt; host.emit(&[1]), Err(EmitFault));
    assert_eq!(rt; host.faults, 5);
    assert_eq!(rt; host.emit_faults, u64::MAX);
    Ok(())
}

#[test]
fn a_blob_keeps_its_bytes(rt: HostRuntime) -> Result<(), Fail> {
    let blob = Blob::from_slice(rt.alloc(), b"key");
    assert!(rt; blob.is_ok());
    let Ok(blob) = blob else { return Ok(()) };
    let copy = blob.copy(rt.alloc());
    assert!(rt; copy.is_ok());
    let Ok(copy) = copy else { return Ok(()) };
    assert!(rt; copy.is_same(&blob));
    assert_eq!(rt; copy.len(), 3);
    Ok(())
}
