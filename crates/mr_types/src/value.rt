//! Values.

ghost use Rattle.std.specs.Prelude.{◌≡◌, IfOk};
ghost use Rattle.mr_types.specs.Values.{is_equal};

use mr_base::{Blob, Memory};
use sqlite_items::Items;
use std::alloc::Global;

/// A value of a column, or of a literal.
#[derive(Drop)]
pub enum Value {
    Null,
    Number(i128),
    /// ASCII bytes.
    Text(Blob),
    Bytes(Blob),
}

/// Values, which contracts see as a list.
pub type ValueList = Items<Value>;

/// Rows of a reply, which contracts see as a list of lists of values.
pub type RowTable = Items<ValueList>;

impl Value {
    /// A copy of this value.
    pub fn copy(&self, alloc: Global) -> Result<Value, Memory>
        ensures { IfOk result (λ v. v ≡ self.now) }
    {
        match self {
            Value::Null => Ok(Value::Null),
            Value::Number(number) => Ok(Value::Number(*number)),
            Value::Text(text) => Ok(Value::Text(text.copy(alloc)?)),
            Value::Bytes(bytes) => Ok(Value::Bytes(bytes.copy(alloc)?)),
        }
    }

    /// Whether the two are the same, byte for byte.
    pub fn is_equal(&self, other: &Value) -> bool
        ensures { result ≡ is_equal self.now other.now }
    {
        match (self, other) {
            (Value::Null, Value::Null) => true,
            (Value::Number(m), Value::Number(n)) => !(m < n || n < m),
            (Value::Text(s), Value::Text(t)) => s.is_same(t),
            (Value::Bytes(s), Value::Bytes(t)) => s.is_same(t),
            _ => false,
        }
    }
}
