//! What it is to put rows in order.

ghost use Rattle.std.specs.Prelude.{◌≡◌, List};
ghost use Rattle.std.specs.Cmp.{IsTotalOrder};
ghost use Rattle.std.specs.List.Sorted.{IsPermutation};
ghost use Rattle.std.specs.declared.cmp.Ordering.{Ordering};
ghost use Rattle.mr_types.specs.declared.definition.TableDef.{TableDef};
ghost use Rattle.mr_types.specs.declared.row.Row.{Row};
ghost use Rattle.mr_types.specs.declared.statement.OrderItem.{OrderItem};
ghost use Rattle.mr_spec.specs.Rows.{primary_cmp};
ghost use Rattle.mr_spec.specs.Select.{order_cmp, sorted};
ghost use Rattle.mr_orders.specs.Orders.{IsAscending, HasKeysOnce, IsSorted, by_key};

/// The rows in order are the same rows, in order, with those that tie as they stood. The orders of
/// the primary key and of ORDER BY are such orders.
pub fn sorting_is_a_sorted_permutation()
    ensures sorts { (cmp : Row → Row → Ordering) (rows : List Row) → IsTotalOrder cmp → IsSorted cmp rows (sorted cmp rows) }
    ensures primary { (def : TableDef) → IsTotalOrder (primary_cmp def) }
    ensures order { (def : TableDef) (order : List OrderItem) → IsTotalOrder (order_cmp def order) }
{}

/// Rows without a primary key twice have one ascending list, and it is the rows in order.
pub fn ascending_rows_are_one_list()
    ensures ascends { (def : TableDef) (rows : List Row) → HasKeysOnce def rows → IsAscending def (by_key def rows) }
    ensures one { (def : TableDef) (rows others : List Row) → IsPermutation rows others → IsAscending def others → by_key def rows ≡ others }
    ensures once { (def : TableDef) (rows : List Row) → IsAscending def rows → HasKeysOnce def rows }
{}
