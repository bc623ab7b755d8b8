// The row mark of the block (section 11): which rows an accepted write works out afresh, and what
// is told of a mark.
ghost use Rattle.std.specs.Prelude.{◌≡◌, [], ◌∷◌, length};
ghost use Rattle.std.proofs.Math.Seq.{paste};
ghost use Rattle.wire.specs.Tables.{long_bytes};
ghost use Rattle.settings.specs.Layout.{block_size, mark_place, mark_size};
ghost use Rattle.front_end.specs.Mark.{mark_at};
ghost use Rattle.front_end.specs.Internal.{MarkGranted, RowsNamed, RowsFresh};
ghost use Rattle.front_end.specs.Demands.{RowsTold};

use settings::layout::*;
use wire::Refusal;

// What a write that changes the mark does to it: the rows from the first up to the end, in a map of
// so many columns, are worked out and put into the mark given here.
#[derive(Clone, Copy)]
pub struct Fresh {
    pub mark: u32,
    pub first: usize,
    pub end: usize,
    pub columns: usize,
}

// The rows that an accepted write works out, if it changes the mark: of 34h those that hold its
// points, of 35h those of the shape, with no bit set before; 36h with 1 puts a mark without a bit.
// The block is as the write's command leaves it.
pub fn fresh_rows(opcode: usize, data: &[u8], block: &[u8]) -> Option<Fresh>
    requires { MarkGranted opcode «data».now block.now }
    ensures { RowsFresh opcode «data».now block.now result }
{
    // By number, as the rules and guides have it: variants would only name the numbers once more.
    match opcode {
        0x34 => Some(touched(data, block)),
        0x35 => Some(Fresh {
            mark: 0,
            first: 0,
            end: wire::word(block, STAGED_ROWS),
            columns: wire::word(block, STAGED_COLUMNS),
        }),
        0x36 => (wire::byte(data, 0) == 1).then_some(Fresh {
            mark: 0,
            first: 0,
            end: 0,
            columns: 0,
        }),
        _ => None,
    }
}

// The rows that hold points of a 34h write, from that of its first point to that of its last.
fn touched(data: &[u8], block: &[u8]) -> Fresh
    requires { MarkGranted 0x34 «data».now block.now }
    ensures { RowsNamed «data».now block.now result }
{
    let named = crate::points_named(false, data);
    let columns = wire::word(block, STAGED_COLUMNS);
    Fresh {
        mark: read(block),
        first: named.start / columns,
        end: (named.start + named.count - 1) / columns + 1,
        columns,
    }
}

// The mark as it lies, low byte first.
fn read(block: &[u8]) -> u32
    ensures { result ≡ mark_at block.now }
{
    wire::long(block, ROW_MARK) as u32
}

// Another mark in its place.
pub fn put(block: &mut [u8], mark: u32)
    requires { length block.old ≡ block_size }
    ensures { block.new ≡ paste block.old mark_place (long_bytes (mark ∷ [])) mark_size }
{
    block[ROW_MARK..ROW_MARK + ROW_MARK_SIZE].copy_from_slice(&mark.to_le_bytes());
}

// How many rows are marked, and the lowest of them if there is one.
#[derive(Clone, Copy)]
pub struct RowCount {
    pub count: u32,
    pub lowest: Option<u32>,
}

// What is told of the mark in a block, as it lies: of the block only the length is judged.
pub fn rows(block: &[u8]) -> Result<RowCount, Refusal>
    ensures { RowsTold block.now result }
{
    if block.len() != BLOCK_SIZE {
        return Err(Refusal::LentWrong);
    }
    let mark = read(block);
    Ok(RowCount {
        count: row_mark::count(mark),
        lowest: row_mark::lowest(mark),
    })
}
