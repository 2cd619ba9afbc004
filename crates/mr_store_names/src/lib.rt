//! What family 0 tells when a store is opened, before its other families are there.
#![tactic(auto)]

mod adding;
mod name;
mod opening;
mod reading;
mod system;

pub use name::Name;
pub use reading::read_names;
pub use system::system_family;
