//! The laws that join what is written to what is read, and one column to its row. They are the contracts of functions that do nothing.
ghost use Rattle.std.specs.Prelude.{◌≡◌, ℕ, List, [], ◌++◌, slice_index_or, Ok};
ghost use Rattle.eng_value.specs.declared.value.Value.{Value};
ghost use Rattle.eng_value.specs.declared.value.Value.TheVariants.{Null};
ghost use Rattle.eng_record.specs.Columns.{column_at};
ghost use Rattle.eng_record.specs.Spelling.{IsSpellable, spelling};
ghost use Rattle.eng_record.specs.Reading.{reading};

/// What is written is read again.
pub fn read_again()
    ensures { (row : List Value) → IsSpellable row → reading (spelling row) ≡ Ok row }
{}

/// Rows with one record are one row.
pub fn one_row()
    ensures { (a b : List Value) → IsSpellable a → IsSpellable b → spelling a ≡ spelling b → a ≡ b }
{}

/// No record begins another: where one ends can be told from its bytes.
pub fn none_begins_another()
    ensures { (a b : List Value) (rest : List ℕ) → IsSpellable a → IsSpellable b → spelling b ≡ spelling a ++ rest → (b ≡ a) × (rest ≡ []) }
{}

/// A column of a record is the value in that place of its row, NULL behind the last one.
pub fn a_column_is_a_value_of_the_row()
    ensures { (bytes : List ℕ) (row : List Value) (place : ℕ) → reading bytes ≡ Ok row → column_at place bytes ≡ Ok (slice_index_or row place Null) }
{}
