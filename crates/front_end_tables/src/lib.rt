// The front end on a block and tables, however the tables are lent: as 16-bit numbers, or as bytes.
#![tactic(auto)]

mod state;

ghost use Rattle.std.specs.Prelude.{◌≡◌, false, Ok, ◌+◌, ◌*◌, ◌≤◌, length, eqb};
ghost use Rattle.wire.specs.Buffers.{Overwrites};
ghost use Rattle.wire.specs.Refusals.{status_of, status_if, fault_if};
ghost use Rattle.settings.specs.Reset.{map_size, gains_size};
ghost use Rattle.opcode.specs.Options.{is_read};
ghost use Rattle.packet.specs.Reading.{answer};
ghost use Rattle.front_end.specs.State.{reply_room, data_room, stopped};
ghost use Rattle.front_end.specs.Commands.{data_back, written};
ghost use Rattle.front_end.specs.Mark.{«marked», written_marked};
ghost use Rattle.front_end.specs.Step.{decision, read_reply};
ghost use Rattle.front_end.specs.Commands.{staged_after, live_after, gains_after, read_points, read_gains};
ghost use Rattle.front_end.specs.Commands.{gains_sent, gains_into};
ghost use Rattle.front_end.specs.Internal.{Granted, PointsWrite, PointsRead, GainsWrite, GainsRead, MarkGranted};
ghost use Rattle.front_end_tables.specs.Held.{held, SameLists, FreshMark, Answered};
ghost use Rattle.front_end_tables.specs.Lent.{lent, «lengths_right», Handled, Reset};

use front_end::{
    COLOUR_GAINS, GAIN_ONE, GAINS_HEAD, GAINS_SIZE, MAP_SIZE, Outcome, POINTS_HEAD, REPLY_ROOM,
};
use packet::Command;
use row_mark::Map;
use settings::layout::BLOCK_SIZE;
use state::State;
use tables::Table;
use wire::{Element, Refusal};

// Whether a table is of so many numbers.
fn holds<T: Element>(table: &[T], n: usize) -> bool
    requires { n ≤ gains_size }
    ensures { result ≡ eqb (length table.now) (T.WIDTH * n) }
{
    table.len() == T::WIDTH * n
}

// Puts the block and all tables as they are after reset; a wrong length is refused, and nothing is
// changed.
pub fn reset<T: Table>(
    block: &mut [u8],
    staged: &mut [T],
    live: &mut [T],
    gains: &mut [T],
) -> Result<(), Refusal>
    ensures { Reset T.WIDTH T.numbers (lent block.old staged.old live.old gains.old)
        (status_of result) (lent block.new staged.new live.new gains.new) }
{
    if !lengths_right(block, staged, live, gains) {
        return Err(Refusal::LentWrong);
    }
    settings::reset_block(block);
    tables::fill(staged, 0, MAP_SIZE, 0);
    tables::fill(live, 0, MAP_SIZE, 0);
    tables::fill(gains, 0, GAINS_SIZE, GAIN_ONE);
    Ok(())
}

// Whether each lent list has the length it must have.
fn lengths_right<T: Element>(block: &[u8], staged: &[T], live: &[T], gains: &[T]) -> bool
    ensures { result ≡ «lengths_right» T.WIDTH (lent block.now staged.now live.now gains.now) }
{
    block.len() == BLOCK_SIZE
        && holds(staged, MAP_SIZE)
        && holds(live, MAP_SIZE)
        && holds(gains, GAINS_SIZE)
}

// One packet on a block and tables: any bytes, any lent lengths.
pub fn handle<T: Table + Map>(
    packet: &[u8],
    block: &mut [u8],
    staged: &mut [T],
    live: &mut [T],
    gains: &mut [T],
    reply: &mut [u8],
) -> Outcome
    ensures { Handled T.WIDTH T.numbers packet.now
        (lent block.old staged.old live.old gains.old) reply.old
        (status_if result.refused) (fault_if result.refused) result.size
        (lent block.new staged.new live.new gains.new) reply.new }
{
    if !lengths_right(block, staged, live, gains) {
        return Outcome {
            refused: Some(Refusal::LentWrong),
            size: 0,
        };
    }
    let mut state = State {
        block,
        staged,
        live,
        gains,
    };
    state.handle(packet, reply)
}

impl<'a, T: Table + Map> State<'a, T> {
    // One packet: stopped, refused or performed.
    fn handle(&mut self, packet: &[u8], reply: &mut [u8]) -> Outcome
        ensures outcome { Answered packet.now (held self.old) reply.old result (held self.new) reply.new }
        ensures lists { SameLists self.old self.new }
    {
        if self.stops(reply) {
            return Outcome {
                refused: Some(Refusal::LentWrong),
                size: 0,
            };
        }
        let decision = self.decide(packet);
        match decision {
            Ok(command) => self.perform(command, packet, reply),
            Err(_) => front_end::refuse(decision, packet, reply),
        }
    }

    // Refusal 1: the reply buffer is too short, or a setting is out of its range.
    fn stops(&self, reply: &[u8]) -> bool
        ensures { result ≡ stopped (held self.now) reply.now }
    {
        (reply.len() < REPLY_ROOM) || !settings::in_range(self.block)
    }

    // What is to be done with the packet: a command, or refusal 2 to 12.
    fn decide(&self, packet: &[u8]) -> Result<Command, Refusal>
        ensures { answer result ≡ decision packet.now self.now.block.now }
    {
        front_end::decide(packet, self.block)
    }

    // An accepted command: a read is answered with its data, a write is stored and acknowledged.
    fn perform(&mut self, command: Command, packet: &[u8], reply: &mut [u8]) -> Outcome
        requires runs { stopped (held self.old) reply.old ≡ false }
        requires decided { answer (Ok command) ≡ decision packet.now self.old.block.now }
        ensures outcome { Answered packet.now (held self.old) reply.old result (held self.new) reply.new }
        ensures lists { SameLists self.old self.new }
    {
        let data = command.data(packet);
        let size = if command.header().reads() {
            self.answer_read(command, data, reply)
        } else {
            self.write(command, data);
            front_end::acknowledge(packet, None, reply)
        };
        Outcome {
            refused: None,
            size,
        }
    }

    // The reply of an accepted read: its data, of which there are at most 508 bytes, goes in behind
    // the three-byte head.
    fn answer_read(&self, command: Command, data: &[u8], reply: &mut [u8]) -> usize
        requires granted { Granted command.opcode command.options «data».now self.now.block.now }
        requires reads { is_read command.options ≡ 1 }
        requires room { reply_room ≤ length reply.old }
        ensures { Overwrites result (read_reply command.opcode command.options «data».now (held self.now)) reply.old reply.new }
    {
        let n = self.fetch(&mut reply[3..], command, data);
        reply::seal(reply, 0, n, command.header().has_checksum())
    }

    // The data that an accepted read returns, over the start of the buffer. Answers its size.
    fn fetch(&self, out: &mut [u8], command: Command, data: &[u8]) -> usize
        requires granted { Granted command.opcode command.options «data».now self.now.block.now }
        requires reads { is_read command.options ≡ 1 }
        requires room { data_room ≤ length out.old }
        ensures { Overwrites result (data_back command.opcode «data».now (held self.now)) out.old out.new }
    {
        // By number, as the rules and guides have it: variants would only name the numbers once more.
        match command.opcode {
            0x34 => fetch_points(out, data, self.staged),
            0x2B => fetch_gains(out, data, self.gains),
            _ => front_end::fetch(
                out,
                command.opcode as usize,
                command.options as usize,
                data,
                self.block,
            ),
        }
    }

    // An accepted write: what its command stores, and then the mark of the rows that moved.
    fn write(&mut self, command: Command, data: &[u8])
        requires granted { Granted command.opcode command.options «data».now self.old.block.now }
        requires writes { is_read command.options ≡ 0 }
        ensures stored { held self.new ≡ written_marked command.opcode «data».now (held self.old) }
        ensures lists { SameLists self.old self.new }
    {
        self.store(command, data);
        self.mark_rows(command.opcode as usize, data);
    }

    // What the command stores: in the block and in the tables that it names.
    fn store(&mut self, command: Command, data: &[u8])
        requires granted { Granted command.opcode command.options «data».now self.old.block.now }
        requires writes { is_read command.options ≡ 0 }
        ensures stored { held self.new ≡ written command.opcode «data».now (held self.old) }
        ensures lists { SameLists self.old self.new }
    {
        let opcode = command.opcode as usize;
        let staged = &mut *self.staged;
        apply(opcode, data, staged, self.live);
        store_points(opcode, data, staged);
        store_gains(opcode, data, self.gains);
        front_end::store(self.block, opcode, command.options as usize, data);
    }

    // The mark as the write leaves it: the rows that it works out, in both maps as they are now.
    fn mark_rows(&mut self, opcode: usize, data: &[u8])
        requires { MarkGranted opcode «data».now self.old.block.now }
        ensures marked { held self.new ≡ «marked» opcode «data».now (held self.old) }
        ensures lists { SameLists self.old self.new }
    {
        if let Some(mark) = self.fresh_mark(opcode, data) {
            front_end::mark::put(self.block, mark);
        }
    }

    // That mark, where the write changes it.
    fn fresh_mark(&self, opcode: usize, data: &[u8]) -> Option<u32>
        requires { MarkGranted opcode «data».now self.now.block.now }
        ensures { FreshMark opcode «data».now (held self.now) result }
    {
        let fresh = front_end::mark::fresh_rows(opcode, data, self.block)?;
        Some(row_mark::refresh(
            fresh.mark,
            fresh.first,
            fresh.end,
            fresh.columns,
            self.staged,
            self.live,
        ))
    }
}

// 34h: the staged points that the packet names.
fn fetch_points<T: Table>(out: &mut [u8], data: &[u8], staged: &[T]) -> usize
    requires { PointsRead «data».now × (length (T.numbers staged.now) ≡ map_size) × (data_room ≤ length out.old) }
    ensures { Overwrites result (read_points «data».now (T.numbers staged.now)) out.old out.new }
{
    let named = front_end::points_named(true, data);
    T::words_out(out, 0, wire::part(staged, 2 * named.start, 2 * named.count));
    4 * named.count
}

// 2Bh: the gains that the packet names.
fn fetch_gains<T: Table>(out: &mut [u8], data: &[u8], gains: &[T]) -> usize
    requires { GainsRead «data».now × (length (T.numbers gains.now) ≡ gains_size) × (data_room ≤ length out.old) }
    ensures { Overwrites result (read_gains «data».now (T.numbers gains.now)) out.old out.new }
{
    let named = front_end::gains_named(true, data);
    T::words_out(out, 0, wire::part(gains, named.place, named.count));
    2 * named.count
}

// 36h with 1: all staged points become live.
fn apply<T: Element>(opcode: usize, data: &[u8], staged: &[T], live: &mut [T])
    requires { length live.old ≡ length staged.now }
    ensures { T.numbers live.new ≡ live_after opcode «data».now (T.numbers staged.now) (T.numbers live.old) }
{
    // By number, as the rules and guides have it: variants would only name the numbers once more.
    if (opcode == 0x36) & (wire::byte(data, 0) == 1) {
        copy_all(live, staged);
    }
}

// A list as another one of its length is. One by one, since the library's method would have the
// archive for C ask for one name more of the C library.
fn copy_all<T: Element>(to: &mut [T], from: &[T])
    requires { length to.old ≡ length from.now }
    ensures { to.new ≡ from.now }
{
    for i in 0..from.len() {
        to[i] = from[i];
    }
}

// 34h: the points of the packet, from its start on.
fn store_points<T: Table>(opcode: usize, data: &[u8], staged: &mut [T])
    requires { (opcode ≡ 0x34 → PointsWrite «data».now) × (length (T.numbers staged.old) ≡ map_size) }
    ensures { T.numbers staged.new ≡ staged_after opcode «data».now (T.numbers staged.old) }
{
    // By number, as the rules and guides have it: variants would only name the numbers once more.
    if opcode == 0x34 {
        let named = front_end::points_named(false, data);
        T::words_in(staged, 2 * named.start, wire::behind(data, POINTS_HEAD));
    }
}

// 2Bh: the gains that the packet sends, into one third of the table or, for colour 0, into all three.
fn store_gains<T: Table>(opcode: usize, data: &[u8], gains: &mut [T])
    requires { (opcode ≡ 0x2B → GainsWrite «data».now) × (length (T.numbers gains.old) ≡ gains_size) }
    ensures { T.numbers gains.new ≡ gains_after opcode «data».now (T.numbers gains.old) }
{
    if opcode != 0x2B {
        return;
    }
    let named = front_end::gains_named(false, data);
    put_gains(data, gains, named.place);
    if named.colour == 0 {
        put_gains(data, gains, COLOUR_GAINS + named.place);
        put_gains(data, gains, 2 * COLOUR_GAINS + named.place);
    }
}

// 2Bh: the gains that the packet sends, from a place on: its words, or run by run what its pairs stand for.
fn put_gains<T: Table>(data: &[u8], gains: &mut [T], place: usize)
    requires { GainsWrite «data».now × (place + length (gains_sent «data».now) ≤ length (T.numbers gains.old)) }
    ensures { T.numbers gains.new ≡ gains_into (T.numbers gains.old) place (gains_sent «data».now) }
{
    let words = wire::behind(data, GAINS_HEAD);
    if opcode::in_pairs(data) {
        tables::runs_in(gains, place, words);
    } else {
        T::words_in(gains, place, words);
    }
}
