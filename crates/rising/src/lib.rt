// The rising test of 35h called alone, for measuring. The front end runs the same search on a
// packet.
// This is a library, whose contract promises speaks of; rising_c makes the static library of it.
#![tactic(auto)]

ghost use Rattle.std.specs.Prelude.{◌≡◌, ◌<◌};
ghost use Rattle.wire.specs.Refusals.{status_of, fault_of};
ghost use Rattle.rising.specs.Alone.{refusal, place, RisingTold};

use opcode::limits::{MOST_COLUMNS, MOST_ROWS};
use opcode::rise;
use wire::Refusal;

// The bytes of both lists, without the mode, and where the second begins.
const LISTS_SIZE: usize = 188;

const ROW_LIST: usize = 124;

// The mode stands in front of the lists, so that places count from 1.
const MODE_SIZE: usize = 1;

// Judges the two lists as a 35h write in mode 1 that carries them: status 0, 9 or 10, and with 10
// the place of the first entry at fault. The C interface has both in one number.
#[unsafe(no_mangle)]
pub extern "C" fn vermolgas_rising(lists: &[u8]) -> u64
    ensures { RisingTold lists.now result }
{
    match judge(lists) {
        Ok(()) => 0,
        Err(why) => why.number() as u64 + 4294967296 * why.place() as u64,
    }
}

// The same, by what is refused.
fn judge(lists: &[u8]) -> Result<(), Refusal>
    ensures { (status_of result ≡ refusal lists.now) × (fault_of result ≡ place lists.now)
        × (fault_of result < 256) }
{
    if lists.len() != LISTS_SIZE {
        return Err(Refusal::SizeWrong);
    }
    let columns = rise(lists, 0, MOST_COLUMNS);
    if columns < MOST_COLUMNS {
        return Err(Refusal::ValueWrong(MODE_SIZE + 2 * columns));
    }
    let rows = rise(lists, ROW_LIST, MOST_ROWS);
    if rows < MOST_ROWS {
        return Err(Refusal::ValueWrong(MODE_SIZE + ROW_LIST + 2 * rows));
    }
    Ok(())
}
