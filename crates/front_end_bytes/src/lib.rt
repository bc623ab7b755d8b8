// The front end on tables lent as bytes, low byte first, where they lie: what the C entries stand on.
// Its entries are those of front_end_tables, under the promises that are made byte by byte.
#![tactic(auto)]

ghost use Rattle.wire.specs.Refusals.{status_of, status_if, fault_if};
ghost use Rattle.front_end_bytes.specs.Bytes.{lent, lent_out, lent_reset};
ghost use Rattle.front_end_bytes.specs.Promises.{HandledBytes, ResetsBytes};

use front_end::Outcome;
use wire::Refusal;

// Puts the block and all tables as they are after reset; a wrong length is refused, and nothing is
// changed.
pub fn reset(
    block: &mut [u8],
    staged: &mut [u8],
    live: &mut [u8],
    gains: &mut [u8],
) -> Result<(), Refusal>
    ensures { ResetsBytes
        (lent block.old staged.old live.old gains.old)
        (lent_reset (status_of result) (lent block.new staged.new live.new gains.new)) }
{
    front_end_tables::reset(block, staged, live, gains)
}

// One packet on a state: any bytes, any lent lengths.
pub fn handle(
    packet: &[u8],
    block: &mut [u8],
    staged: &mut [u8],
    live: &mut [u8],
    gains: &mut [u8],
    reply: &mut [u8],
) -> Outcome
    ensures { HandledBytes packet.now
        (lent block.old staged.old live.old gains.old) reply.old
        (lent_out (status_if result.refused) (fault_if result.refused) result.size
        (lent block.new staged.new live.new gains.new) reply.new) }
{
    front_end_tables::handle(packet, block, staged, live, gains, reply)
}
