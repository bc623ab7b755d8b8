// Maps, as 16-bit numbers or as their bytes: rows of points, x and y each a number.
ghost use Rattle.std.specs.Prelude.{◌≡◌, ◌+◌, ◌*◌, ◌≤◌, length};
ghost use Rattle.row_mark.specs.Rows.{«row_differs»};

use wire::Element;

// What a map may be made of.
pub trait Map: Element {
    // Whether a row has a point that differs.
    fn row_differs(row: usize, columns: usize, staged: &[Self], live: &[Self]) -> bool
        requires { (2 * (columns * row + columns) ≤ length (Self.numbers staged.now))
            × (2 * (columns * row + columns) ≤ length (Self.numbers live.now)) }
        ensures { result ≡ «row_differs» columns (Self.numbers staged.now)
            (Self.numbers live.now) row };
}
