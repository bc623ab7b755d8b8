// Maps as the bytes of 16-bit numbers, low byte first: four bytes a point.
ghost use Rattle.std.specs.Prelude.{◌≡◌, ◌+◌, ◌*◌, ◌<◌, ◌≤◌, length};
ghost use Rattle.wire.specs.Numbers.{long_at};
ghost use Rattle.wire.specs.Tables.{words};
ghost use Rattle.row_mark.specs.Rows.{«points_differ»};

use crate::map::Map;

impl Map for u8 {
    // Four points at a time, which is four times as fast, and then the rest of them one by one.
    // It ends with the four in which the first difference lies.
    fn row_differs(row: usize, columns: usize, staged: &[u8], live: &[u8]) -> bool {
        let start = columns * row;
        let fours = columns / 4;
        fours_differ(start, fours, staged, live)
            || points_differ(start + 4 * fours, columns - 4 * fours, staged, live)
    }
}

// Whether one of n times four points, from one on, differs. The two tests are joined, as one
// branch for both is faster than two.
fn fours_differ(start: usize, n: usize, staged: &[u8], live: &[u8]) -> bool
    requires { (4 * (start + 4 * n) ≤ length staged.now)
        × (4 * (start + 4 * n) ≤ length live.now) }
    ensures { result ≡ «points_differ» start (4 * n) (words staged.now) (words live.now) }
{
    for i in 0..n {
        let j = 4 * (start + 4 * i);
        if (two_points(staged, j) != two_points(live, j))
            | (two_points(staged, j + 8) != two_points(live, j + 8))
        {
            return true;
        }
    }
    false
}

// Whether one of n points, from one on, differs.
fn points_differ(start: usize, n: usize, staged: &[u8], live: &[u8]) -> bool
    requires { (4 * (start + n) ≤ length staged.now) × (4 * (start + n) ≤ length live.now) }
    ensures { result ≡ «points_differ» start n (words staged.now) (words live.now) }
{
    for i in 0..n {
        let j = 4 * (start + i);
        if point(staged, j) != point(live, j) {
            return true;
        }
    }
    false
}

// Two points as one number of 64 bits.
fn two_points(map: &[u8], at: usize) -> u64
    requires { at + 7 < length map.now }
    ensures { result ≡ long_at map.now at + 4294967296 * long_at map.now (at + 4) }
{
    u64::from_le_bytes([
        map[at],
        map[at + 1],
        map[at + 2],
        map[at + 3],
        map[at + 4],
        map[at + 5],
        map[at + 6],
        map[at + 7],
    ])
}

// Both numbers of the point at a place, as one of 32 bits.
fn point(map: &[u8], at: usize) -> u32
    requires { at + 3 < length map.now }
    ensures { result ≡ long_at map.now at }
{
    u32::from_le_bytes([map[at], map[at + 1], map[at + 2], map[at + 3]])
}
