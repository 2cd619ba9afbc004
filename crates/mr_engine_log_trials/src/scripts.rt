//! Logs by scripts of their calls, compared with the list kept beside.
use crate::beside::left_by;
use crate::reopened::open_again;
use crate::steps::run;
use mr_base::Stop;
use mr_memhost::{Choice, MemHost};
use std::alloc::Global;
use std::test::Fail;

/// All scripts end when they are cut short.
pub const SCRIPTS: [&[u8]; 4] = [
    b"wpcwpaswpcps",
    b"pcspcpawwpaps",
    b"prcrcsprarasw",
    b"wrpwscscaswsr",
];

/// Behind these steps and a crash, what opening the log finds.
fn found(alloc: Global, script: &[u8], choice: Choice) -> Result<Vec<u8>, Stop> {
    let mut host = MemHost::new(alloc);
    let _done = run(alloc, &mut host, script);
    let Ok(mut host) = host.crash(choice) else {
        return Err(Stop::Memory);
    };
    let mut out = Vec::new(alloc);
    let _log = open_again(alloc, &mut host, &mut out)?;
    Ok(out)
}

/// Whether that is what is to be left.
fn is_left(alloc: Global, script: &[u8], choice: Choice) -> bool {
    match (found(alloc, script, choice), left_by(alloc, script)) {
        (Ok(found), Ok(left)) => found.as_slice() == left.as_slice(),
        _ => false,
    }
}

/// Whether it is so behind each step.
fn is_always_left(alloc: Global, script: &[u8], choice: Choice) -> bool {
    let mut is_so = true;
    for length in 0..script.len() + 1 {
        is_so = is_so && is_left(alloc, &script[..length], choice);
    }
    is_so
}

#[test]
fn each_step_leaves_what_is_kept_beside(rt: HostRuntime) -> Result<(), Fail> {
    let alloc = rt.alloc();
    for script in SCRIPTS {
        assert!(rt; is_always_left(alloc, script, Choice::Keep));
        assert!(rt; is_always_left(alloc, script, Choice::Drop));
    }
    Ok(())
}
