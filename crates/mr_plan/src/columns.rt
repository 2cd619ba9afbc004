//! What a condition says of one column.

ghost use Rattle.std.specs.Prelude.{◌≡◌};
ghost use Rattle.std.specs.Option.{option_copied};
ghost use Rattle.mr_plan.specs.Columns.{fixed_of as fixed_in, fixed as fixed_by, narrows_of as narrows_in, narrows as narrows_by};

use mr_spec::Bound;
use mr_types::{Cmp, Value};

/// The first literal in the text that the column must be equal to, if the condition is to be true.
fn fixed_of(expr: &Bound, place: u8) -> Option<&Value>
    ensures { option_copied result ≡ fixed_in place expr.now }
{
    match expr {
        Bound::Compare(column, Cmp::Eq, value) => {
            if *column == place {
                return Some(value);
            }
            None
        }
        Bound::And(parts) => {
            for part in parts.as_slice() {
                if let Some(value) = fixed_of(part, place) {
                    return Some(value);
                }
            }
            None
        }
        _ => None,
    }
}

pub(crate) fn fixed(expr: Option<&Bound>, place: u8) -> Option<&Value>
    ensures { option_copied result ≡ fixed_by place (option_copied expr.entry) }
{
    match expr {
        None => None,
        Some(expr) => fixed_of(expr, place),
    }
}

/// Whether the condition says something of the column.
fn narrows_of(expr: &Bound, place: u8) -> bool
    ensures { result ≡ narrows_in place expr.now }
{
    match expr {
        Bound::Compare(column, cmp, _) => match cmp {
            Cmp::Ne => false,
            _ => *column == place,
        },
        Bound::IsNull(column) => *column == place,
        Bound::Between(column, _, _) => *column == place,
        Bound::OneOf(column, _) => *column == place,
        Bound::Not(_) => false,
        Bound::And(parts) => {
            for part in parts.as_slice() {
                if narrows_of(part, place) {
                    return true;
                }
            }
            false
        }
        Bound::Or(parts) => {
            for choice in parts.as_slice() {
                if !narrows_of(choice, place) {
                    return false;
                }
            }
            true
        }
    }
}

pub(crate) fn narrows(expr: Option<&Bound>, place: u8) -> bool
    ensures { result ≡ narrows_by place (option_copied expr.entry) }
{
    match expr {
        None => false,
        Some(expr) => narrows_of(expr, place),
    }
}
