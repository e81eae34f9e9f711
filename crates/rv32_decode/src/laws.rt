//! Laws of the table: each function does nothing, and its contract is the law.

ghost use Rattle.std.specs.Prelude.{◌≡◌, ℕ, true, Some, slice_get};
ghost use Rattle.rv32_decode.specs.Table.{Row, fits_row, table};

/// The rows of the table exclude one another: a word fits one of them at most.
pub fn rows_exclude_one_another()
    ensures { (word i j : ℕ) (first second : Row) → slice_get table i ≡ Some first → slice_get table j ≡ Some second
        → fits_row first word ≡ true → fits_row second word ≡ true → i ≡ j }
{}
