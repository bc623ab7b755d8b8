// Which rows of the staged map differ from the live one, and the mark that says so: bit r of 32
// for row r.
#![tactic(auto)]

mod bytes;
mod map;
mod numbers;

ghost use Rattle.std.specs.Prelude.{◌≡◌, ◌-◌, ◌*◌, ◌<◌, ◌≤◌, length, set};
ghost use Rattle.row_mark.specs.Bits.{bits_of, count_true, first_set};
ghost use Rattle.row_mark.specs.Rows.{mark_rows, refreshed, «row_differs»};

pub use map::Map;

// The mark with the bits of the rows from the first up to the end worked out afresh.
pub fn refresh<T: Map>(
    mark: u32,
    first: usize,
    end: usize,
    columns: usize,
    staged: &[T],
    live: &[T],
) -> u32
    requires { (end ≤ mark_rows) × (2 * (columns * end) ≤ length (T.numbers staged.now))
        × (2 * (columns * end) ≤ length (T.numbers live.now)) }
    ensures { bits_of 32 result ≡ refreshed
        («row_differs» columns (T.numbers staged.now) (T.numbers live.now)) first (end - first)
        (bits_of 32 mark) }
{
    let mut fresh = mark;
    for row in first..end {
        fresh = put_bit(fresh, row, T::row_differs(row, columns, staged, live));
    }
    fresh
}

// The mark with the bit of a row set, or clear.
fn put_bit(mark: u32, row: usize, moved: bool) -> u32
    requires { row < mark_rows }
    ensures { bits_of 32 result ≡ set (bits_of 32 mark) row moved }
{
    let bit = 1u32 << row;
    if moved { mark | bit } else { mark & !bit }
}

// How many rows are marked.
#[tactic(auto, using(crate::proofs::Bits::count_ones))]
pub fn count(mark: u32) -> u32
    ensures { result ≡ count_true (bits_of 32 mark) }
{
    mark.count_ones()
}

// The lowest marked row, if there is one.
pub fn lowest(mark: u32) -> Option<u32>
    ensures { result ≡ first_set (bits_of 32 mark) }
{
    if mark == 0 {
        None
    } else {
        Some(mark.trailing_zeros())
    }
}
