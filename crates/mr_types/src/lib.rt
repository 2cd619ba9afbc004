//! Values, definitions, rows, changes and statements; the order of values, and how a value becomes
//! one of a column.
#![tactic(auto)]

mod assignment;
mod comparison;
mod conversion;
mod copies;
mod definition;
mod expiry;
mod expr;
mod field;
mod holding;
mod kind;
mod laws;
mod refused;
mod row;
mod statement;
mod text;
mod value;

pub use assignment::assign;
pub use comparison::{compare, compare_fields, is_equal_field};
pub use conversion::convert;
pub use copies::{copy_columns, copy_keys, copy_values};
pub use definition::{ColumnDef, ColumnList, IndexDef, IndexList, NameList, TableDef, Ttl};
pub use expiry::is_expired;
pub use expr::{Cmp, Expr, ExprList};
pub use field::{FieldRef, Pieces};
pub use kind::{ColumnType, Kind, KindText};
pub use laws::{assign_keeps, values_in_order};
pub use mr_pieces::Collation;
pub use refused::Refused;
pub use row::{Change, ChangeList, Commit, CommitBody, Reply, Row, Schema};
pub use statement::{
    Aggregate, AggregateList, Columns, Factor, FactorList, IndexName, Insert, ItemValue, KeyName,
    OrderItem, OrderList, Select, SetItem, SetList, SetTo, Statement, Term, TermList, Tuple,
    TupleList,
};
pub use text::{ColumnText, ColumnTextList, KeyText, KeyTextList, TableText};
pub use value::{RowTable, Value, ValueList};
