// The front end's part that needs no table: the decision on a packet, the settings of the block,
// and replies of a status. Both families of entries, on 16-bit tables and on tables lent as bytes,
// stand on it.
#![tactic(auto)]

pub mod mark;

ghost use Rattle.std.specs.Prelude.{◌≡◌, cond, true, ◌+◌, ◌^◌, ◌<◌, ◌≤◌, length, take, drop, eqb, ltb};
ghost use Rattle.std.proofs.Math.Seq.{paste};
ghost use Rattle.wire.specs.Buffers.{Overwrites};
ghost use Rattle.wire.specs.First.{first};
ghost use Rattle.wire.specs.Numbers.{byte_at};
ghost use Rattle.wire.specs.Refusals.{status_if, fault_if};
ghost use Rattle.opcode.specs.Options.{is_read};
ghost use Rattle.opcode.specs.Judgement.{judgement};
ghost use Rattle.packet.specs.Reading.{answer};
ghost use Rattle.settings.specs.Layout.{block_size, shape_head, lists_size};
ghost use Rattle.settings.specs.Ranges.{settings_right};
ghost use Rattle.front_end.specs.State.{reply_room, data_room};
ghost use Rattle.front_end.specs.Commands.{«point_count», colour_place, gains_start, gains_count, third, «runs_past»};
ghost use Rattle.front_end.specs.Commands.{block_after, block_back, write_shape, apply_block, read_shape};
ghost use Rattle.front_end.specs.Internal.{PointsNamed, GainsNamed};
ghost use Rattle.front_end.specs.Step.{decision, «answers», place_data, status_reply};

use opcode::Header;
use packet::Command;
use settings::layout::*;
use wire::Refusal;

// How many numbers a map has, the gain table, and in it one colour.
pub const MAP_SIZE: usize = 3968;

pub const GAINS_SIZE: usize = 6048;

pub const COLOUR_GAINS: usize = gain_words::COLOUR_GAINS;

// What stands in front of a write's points, its start; and of a write's gains: compression, colour, count, start.
pub const POINTS_HEAD: usize = 2;

pub const GAINS_HEAD: usize = 6;

// The fewest bytes of a reply buffer; and a gain of 1.0, which every gain is after reset.
pub const REPLY_ROOM: usize = wire::LONGEST;

pub const GAIN_ONE: u16 = 4096;

// What is to be done with a packet, by its bytes and the settings alone: the command, or refusal 2
// to 12.
pub fn decide(packet: &[u8], block: &[u8]) -> Result<Command, Refusal>
    ensures { answer result ≡ decision packet.now block.now }
{
    let command = packet::read(packet)?;
    if runs_past(command, command.data(packet), block) {
        return Err(Refusal::RunsPast);
    }
    Ok(command)
}

// Whether start + count goes past the staged shape's points (34h, rule 5.4) or past a colour's
// gains (2Bh, rules 5.8 and 5.11).
#[tactic(auto, unfolding(crate::specs::Commands::runs_past))]
fn runs_past(command: Command, data: &[u8], block: &[u8]) -> bool
    ensures { result ≡ «runs_past» command.opcode (eqb (is_read command.options) 1)
        «data».now block.now }
{
    let reads = command.header().reads();
    // By number, as the rules and guides have it: variants would only name the numbers once more.
    match command.opcode {
        0x34 => {
            let named = points_named(reads, data);
            let points = wire::word(block, STAGED_COLUMNS) * wire::word(block, STAGED_ROWS);
            points < named.start + named.count
        }
        0x2B => gains_past(reads, data),
        _ => false,
    }
}

// 2Bh: a write of pairs has as many gains as its runs add up to.
fn gains_past(reads: bool, data: &[u8]) -> bool
    ensures { result ≡ ltb third (gains_start reads «data».now + gains_count reads «data».now) }
{
    let named = gains_named(reads, data);
    if !reads & opcode::in_pairs(data) {
        return gain_words::runs_past(named.start, opcode::words(data));
    }
    COLOUR_GAINS < named.start + named.count
}

// The points that a 34h command names: so many, from a start on.
#[derive(Clone, Copy)]
pub struct Points {
    pub start: usize,
    pub count: usize,
}

pub fn points_named(reads: bool, data: &[u8]) -> Points
    ensures { PointsNamed reads «data».now result }
{
    Points {
        start: wire::word(data, 0),
        count: point_count(reads, data),
    }
}

// A read sends its count; a write has the points behind its start.
fn point_count(reads: bool, data: &[u8]) -> usize
    ensures { (result ≡ «point_count» reads «data».now) × (result < 2 ^ 63) }
{
    if reads {
        return wire::word(data, 2);
    }
    if data.len() < 2 {
        return 0;
    }
    (data.len() - 2) / 4
}

// The words that a 2Bh command names: so many, for a colour, from a start on; and where their gains stand in the table, for colour 0 in the
// first of its three places.
#[derive(Clone, Copy)]
pub struct Gains {
    pub colour: usize,
    pub start: usize,
    pub count: usize,
    pub place: usize,
}

pub fn gains_named(reads: bool, data: &[u8]) -> Gains
    ensures { GainsNamed reads «data».now result }
{
    if reads {
        return gains_at(
            wire::byte(data, 0),
            wire::word(data, 1),
            wire::word(data, 3),
        );
    }
    gains_at(
        wire::byte(data, 1),
        wire::word(data, 4),
        wire::word(data, 2),
    )
}

fn gains_at(colour: usize, start: usize, count: usize) -> Gains
    requires { (colour < 256) × (start < 65536) }
    ensures { (result.colour ≡ colour) × (result.start ≡ start) × (result.count ≡ count)
        × (result.place ≡ colour_place colour start) }
{
    if colour == 0 {
        return Gains {
            colour,
            start,
            count,
            place: start,
        };
    }
    Gains {
        colour,
        start,
        count,
        place: COLOUR_GAINS * (colour - 1) + start,
    }
}

// Writes the reply to a packet that is refused, or whose write is accepted, if it asks for one.
// Answers its length, 0 for none, as rule 3.4 tells it to the caller.
pub fn acknowledge(packet: &[u8], refused: Option<Refusal>, reply: &mut [u8]) -> usize
    requires { (fault_if refused < 65536) × (reply_room ≤ length reply.old) }
    ensures { Overwrites result (status_reply (status_if refused) (fault_if refused) packet.now)
        reply.old reply.new }
{
    match refused {
        Some(why) => acknowledge_status(packet, why.number(), why.place(), reply),
        None => acknowledge_status(packet, 0, 0, reply),
    }
}

// The same with any status, a refusal's or not, and with 10 its place. By number, since no variant
// stands for the others.
pub fn acknowledge_status(packet: &[u8], status: u8, place: usize, reply: &mut [u8]) -> usize
    requires { (place < 65536) × (reply_room ≤ length reply.old) }
    ensures { Overwrites result (status_reply status place packet.now) reply.old reply.new }
{
    if !answers(status, packet) {
        return 0;
    }
    let n = put_place(&mut reply[3..], status, place);
    reply::seal(reply, status, n, header_of(packet).has_checksum())
}

// Rule 3.2: a reply needs a first byte that asks for one or is a read's, and another status than 1.
fn answers(status: u8, packet: &[u8]) -> bool
    ensures { result ≡ «answers» status packet.now }
{
    let header = header_of(packet);
    !packet.is_empty() & (header.reads() | header.asks_reply()) & (status != 1)
}

fn header_of(packet: &[u8]) -> Header
    ensures { result.bits ≡ byte_at packet.now 0 }
{
    Header {
        bits: wire::byte(packet, 0),
    }
}

// The data of such a reply, over the start of the buffer: with status 10 the place in two bytes,
// else none. Answers its size.
fn put_place(out: &mut [u8], number: u8, place: usize) -> usize
    requires { (place < 65536) × (data_room ≤ length out.old) }
    ensures { Overwrites result (place_data number place) out.old out.new }
{
    if number == 10 {
        wire::put_word(out, 0, place);
        return 2;
    }
    0
}

// Rule 3.4: why the packet was refused, if it was, and the length of the reply, 0 where there is
// none.
#[derive(Clone, Copy, Debug, PartialEq, Eq)]
pub struct Outcome {
    pub refused: Option<Refusal>,
    pub size: usize,
}

impl Outcome {
    // The number of the refusal, 0 for none.
    pub fn status(self) -> u8
        ensures { result ≡ status_if self.refused }
    {
        match self.refused {
            Some(why) => why.number(),
            None => 0,
        }
    }

    // The place that the refusal names, 0 for none.
    pub fn place(self) -> usize
        ensures { result ≡ fault_if self.refused }
    {
        match self.refused {
            Some(why) => why.place(),
            None => 0,
        }
    }
}

// The answer to a packet that a decision refuses; of a command, one with status 0.
pub fn refuse(decision: Result<Command, Refusal>, packet: &[u8], reply: &mut [u8]) -> Outcome
    requires { ((answer decision).fault-place < 65536) × (reply_room ≤ length reply.old) }
    ensures { (status_if result.refused ≡ (answer decision).number)
        × (fault_if result.refused ≡ (answer decision).fault-place)
        × Overwrites result.size
        (status_reply (answer decision).number (answer decision).fault-place packet.now)
        reply.old reply.new }
{
    let refused = decision.err();
    let size = acknowledge(packet, refused, reply);
    Outcome { refused, size }
}

// What an accepted write's command stores in the block; 2Bh and 34h store in tables alone. The row
// mark is put behind it (`mark`). What any other stores ends its data, behind the pin or port.
// `settings` has sizes as it has places.
pub fn store(block: &mut [u8], opcode: usize, options: usize, data: &[u8])
    requires { (length block.old ≡ block_size) × (is_read options ≡ 0)
        × (first (judgement opcode options «data».now) ≡ 0) }
    ensures { block.new ≡ block_after opcode «data».now block.old }
{
    // By number, as the rules and guides have it: variants would only name the numbers once more.
    match opcode {
        0x2B => {}
        0x34 => {}
        0x35 => store_shape(block, data),
        0x36 => store_apply(block, data),
        0x38 => wire::copy(block, SMOOTH_TABLE, data, 0, data.len()),
        _ => {
            let size = settings::size_of(opcode);
            wire::copy(
                block,
                settings::place_of(opcode, data),
                data,
                data.len() - size,
                size,
            );
        }
    }
}

// 35h: mode 0 sets mode, columns and rows; mode 1 the lists too, and the shape that goes with them.
fn store_shape(block: &mut [u8], data: &[u8])
    requires { (length block.old ≡ block_size)
        × (length «data».now ≡ cond (eqb (byte_at «data».now 0) 1) (1 + lists_size) shape_head) }
    ensures { block.new ≡ write_shape «data».now block.old }
{
    if wire::byte(data, 0) == 1 {
        wire::put_byte(block, STAGED_SHAPE, 1);
        wire::put_word(block, STAGED_COLUMNS, COLUMN_ENTRIES);
        wire::put_word(block, STAGED_ROWS, ROW_ENTRIES);
        wire::copy(block, STAGED_LISTS, data, 1, LISTS_SIZE);
        return;
    }
    wire::copy(block, STAGED_SHAPE, data, 0, SHAPE_HEAD);
}

// 36h: 1 sets enable and copies the staged shape over the live one; 0 clears enable.
fn store_apply(block: &mut [u8], data: &[u8])
    requires { length block.old ≡ block_size }
    ensures { block.new ≡ apply_block «data».now block.old }
{
    if wire::byte(data, 0) == 1 {
        wire::put_byte(block, ENABLE, 1);
        copy_within(block, LIVE_SHAPE, STAGED_SHAPE, SHAPE_SIZE);
        return;
    }
    wire::put_byte(block, ENABLE, 0);
}

// Copies n bytes from a place on over those from a place behind them on. One by one, since the
// library's method would have the archive for C ask for one name more of the C library.
fn copy_within(block: &mut [u8], at: usize, from: usize, n: usize)
    requires { (from + n ≤ at) × (at + n ≤ length block.old) }
    ensures { block.new ≡ paste block.old at (drop from block.old) n }
{
    for k in 0..n {
        block[at + k] = block[from + k];
    }
}

// The data that a read of a setting returns, over the start of the buffer. Answers its size.
pub fn fetch(out: &mut [u8], opcode: usize, options: usize, data: &[u8], block: &[u8]) -> usize
    requires { (data_room ≤ length out.old) × (length block.now ≡ block_size)
        × (settings_right block.now ≡ true) × (is_read options ≡ 1)
        × (first (judgement opcode options «data».now) ≡ 0) }
    ensures { Overwrites result (block_back opcode «data».now block.now)
        out.old out.new }
{
    // By number, as the rules and guides have it: variants would only name the numbers once more.
    match opcode {
        0x35 => fetch_shape(out, block),
        0x38 => fetch_part(
            out,
            block,
            SMOOTH_TABLE,
            2 + 4 * (wire::byte(block, SMOOTH_TABLE) * wire::byte(block, SMOOTH_ROWS)),
        ),
        _ => fetch_part(
            out,
            block,
            settings::place_of(opcode, data),
            settings::size_of(opcode),
        ),
    }
}

// 35h: in mode 0 mode, columns and rows; in mode 1 the mode and the lists.
fn fetch_shape(out: &mut [u8], block: &[u8]) -> usize
    requires { (data_room ≤ length out.old) × (length block.now ≡ block_size) }
    ensures { Overwrites result (read_shape block.now) out.old out.new }
{
    if wire::byte(block, STAGED_SHAPE) == 1 {
        wire::put_byte(out, 0, 1);
        wire::copy(out, 1, block, STAGED_LISTS, LISTS_SIZE);
        return LISTED_DATA;
    }
    fetch_part(out, block, STAGED_SHAPE, SHAPE_HEAD)
}

// The n bytes of the block from a place on, over the start of the buffer.
fn fetch_part(out: &mut [u8], block: &[u8], at: usize, n: usize) -> usize
    requires { (n ≤ length out.old) × (at + n ≤ length block.now) }
    ensures { Overwrites result (take n (drop at block.now)) out.old out.new }
{
    wire::copy(out, 0, block, at, n);
    n
}
