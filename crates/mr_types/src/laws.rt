//! What the order and the assignment of values are: laws that callers cite.

ghost use Rattle.mr_types.specs.declared.kind.Kind.{Kind};
ghost use Rattle.mr_types.specs.declared.kind.ColumnType.{ColumnType};
ghost use Rattle.mr_types.specs.Promises.{ValuesInOrder, AssignKeeps};

/// The order of values is total, and being the same is an equivalence, for each kind.
pub fn values_in_order()
    ensures { (kind : Kind) → ValuesInOrder kind }
{}

/// A text or bytes that a column takes stay byte for byte, but for spaces at a text's end that
/// are too many.
pub fn assign_keeps()
    ensures { (column : ColumnType) → AssignKeeps column }
{}
