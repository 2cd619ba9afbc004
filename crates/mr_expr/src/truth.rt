//! The truth of a bound condition on a row where it lies.

ghost use Rattle.std.specs.Prelude.{◌≡◌, IsSome, IfSome};
ghost use Rattle.mr_types.specs.Values.{is_null as null_test};
ghost use Rattle.mr_spec.specs.Rows.{value_at};
ghost use Rattle.mr_spec.specs.Truth.{truth_of_test as of_test};
ghost use Rattle.mr_spec.specs.Binding.{test_at, one_at, bound_truth};

use crate::comparing::{among, and_of, compared, is_null, not_of, or_of, truth_of_test};
use crate::fields::Fields;
use mr_spec::{Bound, Truth};
use mr_types::{Cmp, Value};

/// The column at a place against a literal.
fn test_of<F: Fields>(fields: &F, column: u8, cmp: Cmp, literal: &Value) -> Truth
    requires { IsSome (F.current fields.now) }
    ensures { IfSome (F.current fields.now) (λ r. result ≡ test_at (F.def fields.now) r column cmp literal.now) }
{
    compared(fields.kind(column), &fields.field(column), cmp, literal)
}

/// IN; the field is looked at once.
fn one_of<F: Fields>(fields: &F, column: u8, literals: &[Value]) -> Truth
    requires { IsSome (F.current fields.now) }
    ensures { IfSome (F.current fields.now) (λ r. result ≡ one_at (F.def fields.now) r column literals.now) }
{
    among(fields.kind(column), &fields.field(column), literals)
}

/// IS NULL, which is never unknown.
fn is_null_at<F: Fields>(fields: &F, column: u8) -> Truth
    requires { IsSome (F.current fields.now) }
    ensures { IfSome (F.current fields.now) (λ r. result ≡ of_test (null_test (value_at r column))) }
{
    truth_of_test(is_null(&fields.field(column)))
}

/// The truth of a bound condition on the row, which is there. It takes no memory.
pub fn holds<F: Fields>(expr: &Bound, fields: &F) -> Truth
    requires { IsSome (F.current fields.now) }
    ensures { IfSome (F.current fields.now) (λ r. result ≡ bound_truth (F.def fields.now) r expr.now) }
{
    match expr {
        Bound::Compare(column, cmp, literal) => test_of::<F>(fields, *column, *cmp, literal),
        Bound::IsNull(column) => is_null_at::<F>(fields, *column),
        Bound::Between(column, low, high) => {
            let low = test_of::<F>(fields, *column, Cmp::Ge, low);
            let high = test_of::<F>(fields, *column, Cmp::Le, high);
            and_of(low, high)
        }
        Bound::OneOf(column, literals) => one_of::<F>(fields, *column, literals.as_slice()),
        Bound::Not(part) => not_of(holds::<F>(part.get(), fields)),
        Bound::And(parts) => {
            let mut all = Truth::True;
            for part in parts.as_slice() {
                all = and_of(all, holds::<F>(part, fields));
            }
            all
        }
        Bound::Or(parts) => {
            let mut some = Truth::False;
            for choice in parts.as_slice() {
                some = or_of(some, holds::<F>(choice, fields));
            }
            some
        }
    }
}
