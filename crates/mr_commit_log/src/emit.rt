//! Emitting a whole text.

ghost use Rattle.std.specs.Prelude.{◌≡◌, ℕ, OnOk, OnErr, ◌<◌, ◌++◌, length, take};
ghost use Rattle.mr_base.specs.Disk.{Tells, present, HasRisen};
ghost use Rattle.mr_base.specs.Calls.{During, IsShown, EmitCounts};
ghost use Rattle.mr_commit_log.specs.Emitting.{IsCutShort};

use mr_base::{EmitFault, Host};

/// Emits all of the text, in as many pieces as the host takes.
pub fn emit_all<H: Host>(host: &mut H, text: &[u8]) -> Result<(), EmitFault>
    ensures counts { EmitCounts (H.disk host.old) (H.disk host.new) }
    ensures cause { OnErr result (HasRisen (H.disk host.old).emit_faults (H.disk host.new).emit_faults) }
    ensures any_moment { Tells (H.disk host.old) → During (H.disk host.old) (H.disk host.new) (IsShown text.now (present (H.disk host.old))) }
    ensures whole { Tells (H.disk host.old) → OnOk result ((present (H.disk host.new)).output ≡ (present (H.disk host.old)).output ++ text.now) }
    ensures cut_short { Tells (H.disk host.old) → OnErr result (IsCutShort text.now (present (H.disk host.old)).output (present (H.disk host.new)).output) }
{
    let mut at = 0;
    while at < text.len() {
        let count = host.emit(&text[at..])?;
        at += count;
    }
    Ok(())
}
