// The C entries (include/vermolgas.h): each calls the function that does its work and packs the answer into a number.
// This is a library, whose contracts promises speaks of; vermolgas_c makes the static library of it.
#![tactic(auto)]

ghost use Rattle.std.specs.Prelude.{◌≡◌, ◌+◌, ◌*◌, ◌<◌, ◌≤◌, not, eqb};
ghost use Rattle.front_end_bytes.specs.Bytes.{lent, lent_reset};
ghost use Rattle.front_end_bytes.specs.Promises.{ResetsBytes};
ghost use Rattle.vermolgas.specs.Packed.{PackedRead, PackedMake, PackedReplyRead, PackedHandled};
ghost use Rattle.vermolgas.specs.Packed.{PackedRows, PackedCompress, PackedSplit, PackedPlan};

// What making and a packet answer: status, length, and the place of the fault from bit 32 on.
fn packed(status: u8, size: usize, place: usize) -> u64
    requires { (size ≤ 512) × (place < 512) }
    ensures { result ≡ status + 256 * size + 4294967296 * place }
{
    status as u64 + 256 * size as u64 + 4294967296 * place as u64
}

// Puts the block and all tables as they are after reset. The status is 0, or 1 for a wrong length.
#[unsafe(no_mangle)]
pub extern "C" fn vermolgas_reset(
    block: &mut [u8],
    staged: &mut [u8],
    live: &mut [u8],
    gains: &mut [u8],
) -> u64
    ensures { ResetsBytes
        (lent block.old staged.old live.old gains.old)
        (lent_reset result (lent block.new staged.new live.new gains.new)) }
{
    match front_end_bytes::reset(block, staged, live, gains) {
        Ok(()) => 0,
        Err(why) => why.number() as u64,
    }
}

// One packet on a state, with the reply that it asks for.
#[unsafe(no_mangle)]
pub extern "C" fn vermolgas_packet(
    packet: &[u8],
    block: &mut [u8],
    staged: &mut [u8],
    live: &mut [u8],
    gains: &mut [u8],
    reply: &mut [u8],
) -> u64
    ensures { PackedHandled packet.now
        (lent block.old staged.old live.old gains.old) reply.old
        result (lent block.new staged.new live.new gains.new) reply.new }
{
    let o = front_end_bytes::handle(packet, block, staged, live, gains, reply);
    packed(o.status(), o.size, o.place())
}

// How many rows are marked, and the lowest of them, of the mark as it lies. C is told 32 where none is.
#[unsafe(no_mangle)]
pub extern "C" fn vermolgas_rows(block: &[u8]) -> u64
    ensures { PackedRows block.now result }
{
    match front_end::mark::rows(block) {
        Ok(rows) => 256 * rows.count as u64 + 65536 * rows.lowest.unwrap_or(32) as u64,
        Err(why) => why.number() as u64,
    }
}

// Reads a packet.
#[unsafe(no_mangle)]
pub extern "C" fn vermolgas_read(packet: &[u8]) -> u64
    ensures { PackedRead packet.now result }
{
    match packet::read(packet) {
        Ok(c) => {
            256 * c.opcode as u64
                + 65536 * c.options as u64
                + 16777216 * c.at as u64
                + 4294967296 * c.size as u64
        }
        Err(why) => why.number() as u64 + 4294967296 * why.place() as u64,
    }
}

// Makes a packet in the buffer; of the options bits 3 to 7 count.
#[unsafe(no_mangle)]
pub extern "C" fn vermolgas_make(opcode: u16, options: u8, data: &[u8], buffer: &mut [u8]) -> u64
    ensures { PackedMake opcode options «data».now buffer.old result buffer.new }
{
    match packet::make(opcode, options, data, buffer) {
        Ok(size) => packed(0, size, 0),
        Err(why) => packed(why.number(), 0, why.place()),
    }
}

// Reads a reply; a checksum is expected unless the second argument is 0.
#[unsafe(no_mangle)]
pub extern "C" fn vermolgas_read_reply(reply: &[u8], checksum: u8) -> u64
    ensures { PackedReplyRead reply.now (not (eqb checksum 0)) result }
{
    match reply::read_reply(reply, checksum != 0) {
        Ok(r) => 256 * r.status as u64 + 65536 * r.size as u64,
        Err(why) => why.number() as u64,
    }
}

// Compresses gains: the fewest pairs of a run and a gain that stand for them.
#[unsafe(no_mangle)]
pub extern "C" fn vermolgas_compress(gains: &[u8], pairs: &mut [u8]) -> u64
    ensures { PackedCompress gains.now pairs.old result pairs.new }
{
    match compressor::bytes::compress(gains, pairs) {
        Ok(count) => 256 * count as u64,
        Err(why) => why.number() as u64,
    }
}

// Splits pairs for a colour and a start into packets, back to back in the batch.
#[unsafe(no_mangle)]
pub extern "C" fn vermolgas_split(colour: u32, start: u32, pairs: &[u8], batch: &mut [u8]) -> u64
    ensures { PackedSplit colour start pairs.now batch.old result batch.new }
{
    match splitter::bytes::split(colour, start, pairs, batch) {
        Ok(sent) => 256 * sent.packets as u64 + 4294967296 * sent.bytes as u64,
        Err(why) => why.number() as u64,
    }
}

// Plans an upload: the packets, back to back in the batch, that turn held into wanted in the fewest bytes.
#[unsafe(no_mangle)]
pub extern "C" fn vermolgas_plan(
    points: u32,
    held: &[u8],
    wanted: &[u8],
    plan: &mut [u8],
    room: &mut [u8],
    choices: &mut [u8],
    batch: &mut [u8],
) -> u64
    ensures { PackedPlan points held.now wanted.now
        (record { plan = plan.old; room = room.old; choices = choices.old; batch = batch.old })
        result (record { plan = plan.new; room = room.new; choices = choices.new; batch = batch.new }) }
{
    match planner_bytes::plan(points, held, wanted, plan, room, choices, batch) {
        Ok(planned) => 256 * planned.packets as u64 + 4294967296 * planned.bytes as u64,
        Err(why) => why.number() as u64,
    }
}
