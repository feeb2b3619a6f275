//! Laws of rows and forms, each the contract of a function that does nothing.

ghost use Rattle.std.specs.Prelude.{◌≡◌, ◌↔◌, ◌<◌, ℕ, ℤ, pos, ◌+ℤ◌, ◌*ℤ◌, int_le, Bool, List};
ghost use Rattle.rv_rows.specs.declared.linear.Row.{Row as RowModel};
ghost use Rattle.rv_rows.specs.declared.linear.Form.{Form as FormModel};
ghost use Rattle.rv_rows.specs.Rows.{Holds};
ghost use Rattle.rv_rows.specs.Forms.{number, value};
ghost use Rattle.rv_rows.specs.Tight.{IsTightened};
ghost use Rattle.rv_rows.specs.Arithmetic.{constant_form, column_form, form_sum, form_times, test_row};

/// Each row has exactly one tightened row, which is tight and holds at the same points.
pub fn tightened_rows()
    ensures some { (r : RowModel) → (t : RowModel) × IsTightened r t }
    ensures one { (r a b : RowModel) → IsTightened r a → IsTightened r b → a ≡ b }
    ensures tight { (r t : RowModel) → IsTightened r t → IsTightened t t }
    ensures same_points { (r t : RowModel) → IsTightened r t → (point : List ℤ) → Holds t point ↔ Holds r point }
{}

/// At each point the form of a constant has the constant, that of a column the column's number, a sum of forms the sum of
/// their values, and a multiple of a form that multiple of its value.
pub fn forms_at_points()
    ensures constants { (width : ℕ) (z : ℤ) (point : List ℤ) → value (constant_form width z) point ≡ z }
    ensures columns { (width k : ℕ) (point : List ℤ) → k < width → value (column_form width k) point ≡ number k point }
    ensures sums { (f g : FormModel) (point : List ℤ) → value (form_sum f g) point ≡ value f point +ℤ value g point }
    ensures multiples { (by : ℤ) (f : FormModel) (point : List ℤ) → value (form_times by f) point ≡ by *ℤ value f point }
{}

/// The row of a test `f <= 0` holds at a point exactly where the truth that is given is that of the test there.
pub fn rows_of_tests()
    ensures { (truth : Bool) (f : FormModel) (point : List ℤ) → Holds (test_row truth f) point ↔ (truth ≡ int_le (value f point) (pos 0)) }
{}
