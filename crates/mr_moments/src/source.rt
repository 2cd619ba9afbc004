//! Where moments come from.

use sqlite_items::Items;

/// The system's clock, or given seconds since 1970: one value a statement, and the last one from
/// then on.
#[derive(Drop)]
pub enum Moments {
    System,
    Given(Items<u64>),
}
