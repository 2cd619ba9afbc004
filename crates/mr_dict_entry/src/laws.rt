//! What follows from the definitions, for callers to cite.

ghost use Rattle.std.specs.Prelude.{ℕ, ◌<◌, ◌^◌, List, ◌∷◌, length};
ghost use Rattle.std.specs.List.{AllByRecursion};
ghost use Rattle.mr_types.specs.declared.definition.TableDef.{TableDef};
ghost use Rattle.mr_dict_entry.specs.declared.entry.DictEntry.TheVariants.{Table};
ghost use Rattle.mr_dict_entry.specs.Entries.{entry_value};
ghost use Rattle.mr_dict_entry.specs.Given.{ReadsBack};

/// Where all index numbers but the first are below 2^24, a table isn't read with fewer of them.
pub fn small_numbers_read_back()
    ensures { (name : List ℕ) (number : ℕ) (numbers : List ℕ) (def : TableDef) → 0 < length name → number < 2 ^ 32 → AllByRecursion (λ n. n < 2 ^ 24) numbers → ReadsBack (Table name (number ∷ numbers) def) (entry_value (Table name (number ∷ numbers) def)) }
{}
