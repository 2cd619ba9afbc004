//! The truth of a condition on a row whose fields are judged where they lie.
#![tactic(auto)]

mod comparing;
mod fields;
mod truth;

pub use fields::Fields;
pub use truth::holds;
