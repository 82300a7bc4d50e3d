//! Laws of kept bodies: each is the contract of a function that does nothing.
ghost use Rattle.std.specs.Prelude.{◌≡◌, All, Ok};
ghost use Rattle.desk_base.specs.declared.rows.tables.AnyRow.{AnyRow};
ghost use Rattle.desk_base.specs.declared.rows.tables.Tables.{Tables};
ghost use Rattle.desk_base.specs.rules.Sound.{IsSound};
ghost use Rattle.desk_base.specs.rows.Rows.{key_of};
ghost use Rattle.desk_kept.specs.Kept.{row_text, row_of_text};
ghost use Rattle.desk_kept.specs.Stored.{all_rows, kept_rows, tables_kept};
ghost use Rattle.desk_kept.specs.Rules.{KeepsRules};
ghost use Rattle.desk_kept.specs.Typed.{IsTyped, HasHorizon};

/// A row that keeps the rules of its fields and of its tree is read again from its text.
pub fn rows_are_read_back()
    ensures { (row : AnyRow) → IsTyped row → KeepsRules row → row_of_text (key_of row) (row_text row) ≡ Ok row }
{}

/// A row that keeps the rules of its fields has its days and shifts in the horizon.
pub fn rules_give_the_horizon()
    ensures { (row : AnyRow) → KeepsRules row → HasHorizon row }
{}

/// What is kept of sound tables is read as these tables.
pub fn kept_tables_are_read_back()
    ensures { (t : Tables) → IsSound t → All IsTyped (all_rows t) → tables_kept (kept_rows t) ≡ Ok t }
{}
