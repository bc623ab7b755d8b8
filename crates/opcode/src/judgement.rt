// The judgement of a command, rule by rule: refusals 7 to 11 of rule 4.1.
ghost use Rattle.std.specs.Prelude.{◌≡◌, ◌*◌, ◌≤◌, length, drop};
ghost use Rattle.wire.specs.First.{first};
ghost use Rattle.wire.specs.Refusals.{status_of, fault_of};
ghost use Rattle.opcode.specs.Commands.{row_of, told};
ghost use Rattle.opcode.specs.Judgement.{judgement, fault_place, «lacks_length», «named_only»};
ghost use Rattle.opcode.specs.Judgement.{«size_wrong», «variable_size_wrong», «value_fault»};
ghost use Rattle.opcode.specs.Judgement.{«points_size_wrong», «gains_size_wrong»};
ghost use Rattle.opcode.specs.Judgement.{«control_size_wrong», «smooth_size_wrong»};
ghost use Rattle.opcode.specs.Judgement.{«variable_fault», «in_pairs», «words_fault», «gains_fault»};
ghost use Rattle.opcode.specs.Judgement.{«lists_fault», «control_fault», «smooth_fault»};

use super::fields::{asks, fault, sets};
use super::limits::{MOST_COLUMNS, MOST_ROWS};
use super::lists::rise;
use super::opcodes::row_at;
use super::{Header, Kind, Row};
use wire::Refusal;

// 2Bh: compression, colour, count and start. 35h: mode, columns and rows; or the mode and two
// lists. 38h: columns and rows.
const GAINS_HEAD: usize = 6;

const CONTROL_DATA: usize = 5;

const LISTS_DATA: usize = 189;

const COLUMN_LIST: usize = 1;

const ROW_LIST: usize = 125;

const SMOOTH_HEAD: usize = 2;

// Judges a command by its opcode, options and data: the first of refusals 7 to 11 that applies, of
// 10 with the place that the search for a value at fault came to.
#[tactic(auto, unfolding(crate::specs::Judgement::judgement))]
pub fn judge(opcode: usize, options: Header, data: &[u8]) -> Result<(), Refusal>
    ensures { (status_of result ≡ first (judgement opcode options.bits «data».now))
        × (fault_of result ≡ fault_place (first (judgement opcode options.bits «data».now))
        opcode options.bits «data».now) }
{
    let row = row_at(opcode);
    if row.kind == Kind::NotCarried {
        return Err(Refusal::Unknown);
    }
    if lacks_length(row, opcode, options) {
        return Err(Refusal::LacksLength);
    }
    if size_wrong(row, opcode, options, data) {
        return Err(Refusal::SizeWrong);
    }
    let at = value_fault(row, opcode, options, data);
    if at < data.len() {
        return Err(Refusal::ValueWrong(at));
    }
    if named_only(opcode, options, data) {
        return Err(Refusal::NamedOnly);
    }
    Ok(())
}

// 8: a write without a length field, of a command that varies in size.
fn lacks_length(row: Row, opcode: usize, options: Header) -> bool
    requires { told row ≡ row_of opcode }
    ensures { result ≡ «lacks_length» opcode options.bits }
{
    !options.reads() & (row.kind == Kind::Varies) & !options.has_length()
}

// 9: the size is wrong for the command.
#[tactic(auto, unfolding(crate::specs::Judgement::size_wrong))]
fn size_wrong(row: Row, opcode: usize, options: Header, data: &[u8]) -> bool
    requires { told row ≡ row_of opcode }
    ensures { result ≡ «size_wrong» opcode options.bits «data».now }
{
    if options.reads() {
        return data.len() != row.read;
    }
    match row.kind {
        Kind::Varies => variable_size_wrong(opcode, data),
        _ => data.len() != row.write,
    }
}

fn variable_size_wrong(opcode: usize, data: &[u8]) -> bool
    ensures { result ≡ «variable_size_wrong» opcode «data».now }
{
    // By number, as the rules and guides have it: variants would only name the numbers once more.
    match opcode {
        0x2B => gains_size_wrong(data),
        0x34 => points_size_wrong(data),
        0x35 => control_size_wrong(data),
        _ => smooth_size_wrong(data),
    }
}

// 34h: start, and one point or more.
#[tactic(auto, unfolding(crate::specs::Judgement::points_size_wrong))]
fn points_size_wrong(data: &[u8]) -> bool
    ensures { result ≡ «points_size_wrong» «data».now }
{
    !((6 <= data.len()) & (data.len() % 4 == 2))
}

// 2Bh: whether its words are compressed, in pairs of a run and a gain.
pub fn in_pairs(data: &[u8]) -> bool
    ensures { result ≡ «in_pairs» «data».now }
{
    wire::byte(data, 0) == 1
}

// 2Bh: the bytes of its words, none where the data ends before them.
pub fn words(data: &[u8]) -> &[u8]
    ensures { result.now ≡ drop 6 «data».now }
{
    &data[GAINS_HEAD.min(data.len())..]
}

// 2Bh: compression, colour, count, start, and as many words as the count says; in pairs, an even count.
#[tactic(auto, unfolding(crate::specs::Judgement::gains_size_wrong))]
fn gains_size_wrong(data: &[u8]) -> bool
    ensures { result ≡ «gains_size_wrong» «data».now }
{
    let count = wire::word(data, 2);
    !((GAINS_HEAD <= data.len()) & (data.len() == GAINS_HEAD + 2 * count))
        | (in_pairs(data) & (count % 2 == 1))
}

// 35h: the mode, then two counts or two lists; with a mode above 1 no size is wrong.
#[tactic(auto, unfolding(crate::specs::Judgement::control_size_wrong))]
fn control_size_wrong(data: &[u8]) -> bool
    ensures { result ≡ «control_size_wrong» «data».now }
{
    if data.len() == 0 {
        return true;
    }
    let mode = wire::byte(data, 0);
    if mode == 0 {
        return data.len() != CONTROL_DATA;
    }
    if mode == 1 {
        return data.len() != LISTS_DATA;
    }
    false
}

// 38h: columns, rows, and a point for each; with counts out of range no size is wrong.
#[tactic(auto, unfolding(crate::specs::Judgement::smooth_size_wrong))]
fn smooth_size_wrong(data: &[u8]) -> bool
    ensures { result ≡ «smooth_size_wrong» «data».now }
{
    if data.len() < SMOOTH_HEAD {
        return true;
    }
    if fault(sets(0x38), data) < SMOOTH_HEAD {
        return false;
    }
    data.len() != SMOOTH_HEAD + 4 * (wire::byte(data, 0) * wire::byte(data, 1))
}

// 10: the place of the first value at fault, the data's length or more for none. Places of a head
// and of what stands behind it are added, so that no Option is plainer.
#[tactic(auto, unfolding(crate::specs::Judgement::value_fault))]
fn value_fault(row: Row, opcode: usize, options: Header, data: &[u8]) -> usize
    requires { told row ≡ row_of opcode }
    ensures { result ≡ «value_fault» opcode options.bits «data».now }
{
    if options.reads() {
        return fault(asks(opcode), data);
    }
    match row.kind {
        Kind::Varies => variable_fault(opcode, data),
        _ => fault(sets(opcode), data),
    }
}

fn variable_fault(opcode: usize, data: &[u8]) -> usize
    ensures { result ≡ «variable_fault» opcode «data».now }
{
    // By number, as the rules and guides have it: variants would only name the numbers once more.
    match opcode {
        0x2B => gains_fault(data),
        0x34 => data.len(),
        0x35 => control_fault(data),
        _ => smooth_fault(data),
    }
}

// 2Bh: its fields; then its words.
#[tactic(auto, unfolding(crate::specs::Judgement::gains_fault))]
fn gains_fault(data: &[u8]) -> usize
    ensures { result ≡ «gains_fault» «data».now }
{
    let head = fault(sets(0x2B), data);
    if head < GAINS_HEAD {
        return head;
    }
    GAINS_HEAD + 2 * words_fault(data)
}

// 2Bh: the index of the first word at fault: a gain, or of a pair the run before the gain.
#[tactic(auto, unfolding(crate::specs::Judgement::words_fault))]
fn words_fault(data: &[u8]) -> usize
    ensures { (result ≡ «words_fault» «data».now) × (2 * result ≤ length «data».now) }
{
    let words = words(data);
    if in_pairs(data) {
        return gain_words::pair_fault(words);
    }
    gain_words::first_large(words)
}

// 35h: in mode 1 the lists, else the fields.
#[tactic(auto, unfolding(crate::specs::Judgement::control_fault))]
fn control_fault(data: &[u8]) -> usize
    ensures { result ≡ «control_fault» «data».now }
{
    if wire::byte(data, 0) == 1 {
        return lists_fault(data);
    }
    fault(sets(0x35), data)
}

// 35h in mode 1: 62 and then 32 numbers, each list rising.
#[tactic(auto, unfolding(crate::specs::Judgement::lists_fault))]
fn lists_fault(data: &[u8]) -> usize
    ensures { result ≡ «lists_fault» «data».now }
{
    let columns = rise(data, COLUMN_LIST, MOST_COLUMNS);
    if columns < MOST_COLUMNS {
        return COLUMN_LIST + 2 * columns;
    }
    ROW_LIST + 2 * rise(data, ROW_LIST, MOST_ROWS)
}

// 38h: its two counts.
#[tactic(auto, unfolding(crate::specs::Judgement::smooth_fault))]
fn smooth_fault(data: &[u8]) -> usize
    ensures { result ≡ «smooth_fault» «data».now }
{
    let head = fault(sets(0x38), data);
    if head < SMOOTH_HEAD {
        return head;
    }
    data.len()
}

// 11: merge mode of 39h.
fn named_only(opcode: usize, options: Header, data: &[u8]) -> bool
    ensures { result ≡ «named_only» opcode options.bits «data».now }
{
    // By number, as the rules and guides have it: variants would only name the numbers once more.
    !options.reads() & (opcode == 0x39) & (wire::byte(data, 0) == 1)
}
