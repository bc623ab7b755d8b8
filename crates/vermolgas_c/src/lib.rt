// The C entries as a static library: each calls the entry of vermolgas that has its name, under the
// same clause.
#![tactic(auto)]

ghost use Rattle.std.specs.Prelude.{not, eqb};
ghost use Rattle.front_end_bytes.specs.Bytes.{lent, lent_reset};
ghost use Rattle.front_end_bytes.specs.Promises.{ResetsBytes};
ghost use Rattle.vermolgas.specs.Packed.{PackedRead, PackedMake, PackedReplyRead, PackedHandled};
ghost use Rattle.vermolgas.specs.Packed.{PackedRows, PackedCompress, PackedSplit, PackedPlan};

// Puts the block and all tables as they are after reset. The status is 0, or 1 for a wrong length.
#[unsafe(no_mangle)]
pub extern "C" fn vermolgas_reset(
    block: &mut [u8],
    staged: &mut [u8],
    live: &mut [u8],
    gains: &mut [u8],
) -> u64
    ensures { ResetsBytes
        (lent block.old staged.old live.old gains.old)
        (lent_reset result (lent block.new staged.new live.new gains.new)) }
{
    vermolgas::vermolgas_reset(block, staged, live, gains)
}

// One packet on a state, with the reply that it asks for.
#[unsafe(no_mangle)]
pub extern "C" fn vermolgas_packet(
    packet: &[u8],
    block: &mut [u8],
    staged: &mut [u8],
    live: &mut [u8],
    gains: &mut [u8],
    reply: &mut [u8],
) -> u64
    ensures { PackedHandled packet.now
        (lent block.old staged.old live.old gains.old) reply.old
        result (lent block.new staged.new live.new gains.new) reply.new }
{
    vermolgas::vermolgas_packet(packet, block, staged, live, gains, reply)
}

// How many rows are marked, and the lowest of them, of the mark as it lies.
#[unsafe(no_mangle)]
pub extern "C" fn vermolgas_rows(block: &[u8]) -> u64
    ensures { PackedRows block.now result }
{
    vermolgas::vermolgas_rows(block)
}

// Reads a packet.
#[unsafe(no_mangle)]
pub extern "C" fn vermolgas_read(packet: &[u8]) -> u64
    ensures { PackedRead packet.now result }
{
    vermolgas::vermolgas_read(packet)
}

// Makes a packet in the buffer; of the options bits 3 to 7 count.
#[unsafe(no_mangle)]
pub extern "C" fn vermolgas_make(opcode: u16, options: u8, data: &[u8], buffer: &mut [u8]) -> u64
    ensures { PackedMake opcode options «data».now buffer.old result buffer.new }
{
    vermolgas::vermolgas_make(opcode, options, data, buffer)
}

// Reads a reply; a checksum is expected unless the second argument is 0.
#[unsafe(no_mangle)]
pub extern "C" fn vermolgas_read_reply(reply: &[u8], checksum: u8) -> u64
    ensures { PackedReplyRead reply.now (not (eqb checksum 0)) result }
{
    vermolgas::vermolgas_read_reply(reply, checksum)
}

// Compresses gains: the fewest pairs of a run and a gain that stand for them.
#[unsafe(no_mangle)]
pub extern "C" fn vermolgas_compress(gains: &[u8], pairs: &mut [u8]) -> u64
    ensures { PackedCompress gains.now pairs.old result pairs.new }
{
    vermolgas::vermolgas_compress(gains, pairs)
}

// Splits pairs for a colour and a start into packets, back to back in the batch.
#[unsafe(no_mangle)]
pub extern "C" fn vermolgas_split(colour: u32, start: u32, pairs: &[u8], batch: &mut [u8]) -> u64
    ensures { PackedSplit colour start pairs.now batch.old result batch.new }
{
    vermolgas::vermolgas_split(colour, start, pairs, batch)
}

// Plans an upload: the packets, back to back in the batch, that turn held into wanted in the fewest
// bytes.
#[unsafe(no_mangle)]
pub extern "C" fn vermolgas_plan(
    points: u32,
    held: &[u8],
    wanted: &[u8],
    plan: &mut [u8],
    room: &mut [u8],
    choices: &mut [u8],
    batch: &mut [u8],
) -> u64
    ensures { PackedPlan points held.now wanted.now
        (record { plan = plan.old; room = room.old; choices = choices.old; batch = batch.old })
        result (record { plan = plan.new; room = room.new; choices = choices.new; batch = batch.new }) }
{
    vermolgas::vermolgas_plan(points, held, wanted, plan, room, choices, batch)
}
