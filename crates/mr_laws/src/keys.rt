//! When rows collide, and what a session outside a transaction sees.

ghost use Rattle.std.specs.Prelude.{◌≡◌, ℕ, [], List, None};
ghost use Rattle.std.specs.Option.{option_map_or};
ghost use Rattle.mr_types.specs.declared.definition.IndexDef.{IndexDef};
ghost use Rattle.mr_types.specs.declared.definition.TableDef.{TableDef};
ghost use Rattle.mr_types.specs.declared.row.Row.{Row};
ghost use Rattle.mr_spec.specs.Database.{table_of, replay};
ghost use Rattle.mr_spec.specs.RowSteps.{rows_seen};
ghost use Rattle.mr_spec.specs.World.{World};
ghost use Rattle.mr_laws.specs.Keys.{CollideByValues};

/// Two rows collide in a key exactly where it is unique, they have the same values in its columns,
/// and none of these is NULL, in either row.
pub fn keys_collide_by_values_alone()
    ensures { (def : TableDef) (r s : Row) (key : IndexDef) → CollideByValues def r s key }
{}

/// A session outside a transaction sees the rows that the commits make, whatever others do.
pub fn sessions_see_the_replay()
    ensures { (w : World) (name : List ℕ) → w.here.txn ≡ None → rows_seen name w ≡ option_map_or (λ t. t.rows) (table_of name (replay w.commits)) [] }
{}
