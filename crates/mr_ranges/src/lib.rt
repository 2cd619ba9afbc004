//! Ranges of keys: from a least key up to below another, in order and apart.
#![tactic(auto)]

mod joining;
mod meeting;
mod range;

pub use joining::joined;
pub use meeting::meet;
pub use range::{Range, RangeList, ranges_between};
