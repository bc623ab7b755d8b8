// Maps as 16-bit numbers.
ghost use Rattle.std.specs.Prelude.{◌≡◌};

use crate::map::Map;

impl Map for u16 {
    // It is known at the first point that differs. x and y are tested together, as one branch is
    // faster than two.
    fn row_differs(row: usize, columns: usize, staged: &[u16], live: &[u16]) -> bool {
        let start = columns * row;
        for i in 0..columns {
            let j = 2 * (start + i);
            if (staged[j] != live[j]) | (staged[j + 1] != live[j + 1]) {
                return true;
            }
        }
        false
    }
}
