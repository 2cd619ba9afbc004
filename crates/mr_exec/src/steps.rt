//! The rows of a source that WHERE keeps, one after another.

ghost use Rattle.std.specs.Prelude.{◌≡◌, ◌<◌, false, [], filter, IsTrue, Some, IsSome, IfSome, IfOk, IfErr, is_some};
ghost use Rattle.mr_spec.specs.Truth.{is_true as holds_true};
ghost use Rattle.mr_bound.specs.BoundSelects.{keeps as kept_in};
ghost use Rattle.mr_exec.specs.Sources.{Stepped};

use crate::source::RowSource;
use mr_base::Stop;
use mr_expr::holds;
use mr_spec::{Bound, Truth};

fn is_true(truth: Truth) -> bool
    ensures { result ≡ holds_true truth }
{
    match truth {
        Truth::True => true,
        Truth::False | Truth::Unknown => false,
    }
}

/// Whether WHERE keeps the row that the source stands on.
fn keeps<S: RowSource>(source: &S, condition: &Option<Bound>) -> bool
    requires { IsSome (S.current source.now) }
    ensures { IfSome (S.current source.now) (λ r. result ≡ kept_in (S.def source.now) condition.now r) }
{
    match condition {
        None => true,
        Some(expr) => is_true(holds::<S>(expr, source)),
    }
}

/// Goes to the next row that WHERE keeps; false where none is left. It copies nothing.
pub(crate) fn next_kept<S: RowSource>(
    source: &mut S,
    condition: &Option<Bound>,
) -> Result<bool, Stop>
    ensures reaches { S.reaches source.old source.new }
    ensures def { S.def source.new ≡ S.def source.old }
    ensures stops { IfErr result (λ stop. S.stops source.old source.new stop) }
    ensures stopped { IfErr result (λ stop. S.stopped source.new ≡ Some stop) }
    ensures going { IfOk result (λ more. S.stopped source.new ≡ S.stopped source.old) }
    ensures stands { IfOk result (λ more. is_some (S.current source.new) ≡ more) }
    ensures steps { IfOk result (λ more. IsTrue more → S.steps source.new < S.steps source.old) }
    ensures told { S.told source.old → IfOk result (λ more. S.told source.new) }
    ensures over { S.told source.old → IfOk result (λ more. more ≡ false → S.rows source.new ≡ []) }
    ensures moved { S.told source.old → IfOk result (λ more. Stepped more (filter (kept_in (S.def source.old) condition.now) (S.rows source.old)) (S.current source.new) (filter (kept_in (S.def source.old) condition.now) (S.rows source.new))) }
{
    'walk: loop {
        match source.step() {
            Err(stop) => return Err(stop),
            Ok(false) => return Ok(false),
            Ok(true) => {}
        }
        if keeps::<S>(source, condition) {
            return Ok(true);
        }
    }
}
