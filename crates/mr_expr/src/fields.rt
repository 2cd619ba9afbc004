//! The values of one row where they lie.

ghost use Rattle.std.specs.Prelude.{◌≡◌, IsSome, IfSome, Option};
ghost use Rattle.mr_types.specs.declared.definition.TableDef.{TableDef};
ghost use Rattle.mr_types.specs.declared.row.Row.{Row};
ghost use Rattle.mr_types.specs.FieldValues.{field_value};
ghost use Rattle.mr_spec.specs.Rows.{kind_at, value_at};

use mr_types::{FieldRef, Kind};

/// A row of a table, without a copy: the values of its columns, and their kinds.
pub trait Fields {
    /// The table.
    ghost def: { Self → TableDef };

    /// The row, where there is one.
    ghost current: { Self → Option Row };

    /// The value of the column at a place, NULL where there is none. It takes no memory.
    fn field(&self, column: u8) -> FieldRef<'_>
        requires { IsSome (current self.now) }
        ensures { IfSome (current self.now) (λ r. field_value (kind_at (def self.now) column) result ≡ value_at r column) };

    /// The kind of that column.
    fn kind(&self, column: u8) -> Kind
        ensures { result ≡ kind_at (def self.now) column };
}
