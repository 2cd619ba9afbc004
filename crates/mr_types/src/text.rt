//! Tables and keys as statements write them.

use crate::definition::NameList;
use crate::kind::KindText;
use crate::value::Value;
use mr_base::Blob;
use sqlite_items::Items;

/// A column as CREATE TABLE writes it.
#[derive(Drop)]
pub struct ColumnText {
    pub name: Blob,
    pub kind: KindText,
    pub nullable: bool,
    pub default: Option<Value>,
}

pub type ColumnTextList = Items<ColumnText>;

/// A key as a statement writes it. A primary key has an empty name and is unique.
#[derive(Drop)]
pub struct KeyText {
    pub name: Blob,
    pub primary: bool,
    pub unique: bool,
    pub columns: NameList,
    pub comment: Blob,
}

pub type KeyTextList = Items<KeyText>;

/// A table as CREATE TABLE writes it.
#[derive(Drop)]
pub struct TableText {
    pub name: Blob,
    pub columns: ColumnTextList,
    pub keys: KeyTextList,
    pub comment: Blob,
}
