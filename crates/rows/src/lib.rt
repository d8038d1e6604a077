// Rows of a lent array: the one store of values into a part of an array, for every table, text and list, and the part
// that a row is read from.
#![tactic(auto)]

ghost use Rattle.std.specs.Prelude.{◌≡◌};
ghost use Rattle.prelude.specs.Parts.{part, fits_at, put_at};

// Stores the values of `row` from place `at` on and answers true. Where they do not all fit, nothing changes and it
// answers false.
pub fn put<T: Copy>(t: &mut [T], at: usize, row: &[T]) -> bool
    ensures answer { result ≡ fits_at t.old at row.now }
    ensures stored { t.new ≡ put_at t.old at row.now }
{
    if t.len() < at || t.len() - at < row.len() {
        return false;
    }
    t[at..at + row.len()].copy_from_slice(row);
    true
}

// The `width` values from place `at` on, as a part of `t`. What lies past the end is cut off.
pub fn get<T>(t: &[T], at: usize, width: usize) -> &[T]
    ensures { result.now ≡ part width at t.now }
{
    let rest = &t[at.min(t.len())..];
    &rest[..width.min(rest.len())]
}
