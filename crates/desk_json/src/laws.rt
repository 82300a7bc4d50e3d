//! Laws of cursors, of pages and of bodies: each is the contract of a function that does nothing.
ghost use Rattle.std.specs.Prelude.{◌≡◌, ◌≢◌, ◌⊎◌, ◌<◌, ◌==◌, ℕ, false, Ok, All};
ghost use Rattle.serde_json.specs.Data.{Data};
ghost use Rattle.serde_json.specs.Written.{compact_text};
ghost use Rattle.desk_base.specs.declared.search.results.Cursor.{Cursor};
ghost use Rattle.desk_base.specs.declared.search.results.Page.{Page};
ghost use Rattle.desk_base.specs.declared.asked.answers.Command.{Command};
ghost use Rattle.desk_base.specs.declared.rows.tables.Table.{Table};
ghost use Rattle.desk_base.specs.declared.rows.tables.AnyRow.{AnyRow};
ghost use Rattle.desk_base.specs.rows.Rows.{key_of};
ghost use Rattle.desk_json.specs.Tables.{described, row_form, key_form};
ghost use Rattle.desk_json.specs.Cursors.{cursor_text};
ghost use Rattle.desk_json.specs.CursorReading.{IsCursor};
ghost use Rattle.desk_json.specs.Pages.{page_data};
ghost use Rattle.desk_json.specs.AnsweredPages.{IsAnswered, told};
ghost use Rattle.desk_json.specs.Bodies.{change_in};
ghost use Rattle.desk_json.specs.Asked.{IsAsked};

/// A text is the text of one cursor.
pub fn texts_have_one_cursor()
    ensures { (c d : Cursor) → IsCursor c → IsCursor d → cursor_text c ≡ cursor_text d → c ≡ d }
{}

/// The text of a cursor has no bytes but digits, points, dashes (45) and underlines (95).
pub fn cursor_texts_are_plain()
    ensures { (byte : ℕ) (c : Cursor) → (byte < 45) ⊎ (57 < byte) → byte ≢ 95 → IsCursor c → All (λ x. (x == byte) ≡ false) (cursor_text c) }
{}

/// A text is the text of one answered page, over one revision: it tells the rows, whether the search ends with them, where the next
/// page begins, and, where one does, how many rows were shown.
pub fn texts_have_one_page()
    ensures { (r s : ℕ) (p q : Page) → IsAnswered r p → IsAnswered s q → compact_text (page_data r p) ≡ compact_text (page_data s q) → (r ≡ s) × (told p ≡ told q) }
{}

/// What a body asks for is of the listed forms: a row that is put or removed one by one is of a table up to memberships, and has a
/// rating for a characteristic alone.
pub fn changes_are_of_listed_forms()
    ensures { (d : Data) (c : Command) → change_in d ≡ Ok c → IsAsked c }
{}

/// The row that an object puts into a table stands under the key that the same object names there.
pub fn rows_stand_under_their_keys()
    ensures { (t : Table) (d : Data) (row : AnyRow) → (row_form (described t)).read d ≡ Ok row → (key_form t).read d ≡ Ok (key_of row) }
{}
