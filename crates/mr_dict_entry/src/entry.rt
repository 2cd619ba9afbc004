//! The entries of the dictionary.

use mr_base::Blob;
use mr_types::{IndexDef, TableDef};
use sqlite_items::Items;

/// Index numbers, which contracts see as a list: that of the primary key, then one for each
/// secondary key.
pub type NumberList = Items<u32>;

/// An entry of the dictionary. One has a key of its own by its kind and, where it has one, its first
/// field.
#[derive(Drop)]
pub enum DictEntry {
    /// A table, with the index numbers of its keys.
    Table {
        name: Blob,
        numbers: NumberList,
        def: TableDef,
    },
    /// An index, and the number of its family.
    Index {
        number: u32,
        family: u32,
    },
    /// A family from 2 on, and its name.
    Family {
        family: u32,
        name: Blob,
    },
    /// A dropped index whose entries aren't all removed.
    Dropped {
        number: u32,
        family: u32,
    },
    /// An index that is made while rows are written, and the primary key up to which it is filled;
    /// empty at first.
    Building {
        number: u32,
        table: Blob,
        key: IndexDef,
        family: u32,
        filled: Blob,
    },
    /// The greatest index number that was given.
    Greatest(u32),
    /// The next hidden number of the table whose primary key has this index number.
    NextHidden {
        number: u32,
        next: u64,
    },
    /// How many commits there are, and the moment of the last one.
    LastCommit {
        commits: u64,
        moment: u64,
    },
}
