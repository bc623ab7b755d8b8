// The front end on tables of 16-bit numbers, for Rattle callers. Its entries are those of
// front_end_tables, under the promises that are made of numbers.
#![tactic(auto)]

ghost use Rattle.wire.specs.Refusals.{status_of, status_if, fault_if};
ghost use Rattle.front_end.specs.State.{state, reset_out};
ghost use Rattle.front_end.specs.Step.{«out» as outcome};
ghost use Rattle.front_end.specs.Demands.{Handled, Resets};

use front_end::Outcome;
use wire::Refusal;

// Puts the block and all tables as they are after reset; a wrong length is refused, and nothing is
// changed.
pub fn reset(
    block: &mut [u8],
    staged: &mut [u16],
    live: &mut [u16],
    gains: &mut [u16],
) -> Result<(), Refusal>
    ensures { Resets (state block.old staged.old live.old gains.old)
        (reset_out (status_of result) (state block.new staged.new live.new gains.new)) }
{
    front_end_tables::reset(block, staged, live, gains)
}

// One packet on a state: any bytes, any lent lengths.
pub fn handle(
    packet: &[u8],
    block: &mut [u8],
    staged: &mut [u16],
    live: &mut [u16],
    gains: &mut [u16],
    reply: &mut [u8],
) -> Outcome
    ensures { Handled packet.now
        (state block.old staged.old live.old gains.old) reply.old
        (outcome (status_if result.refused) (fault_if result.refused) result.size
        (state block.new staged.new live.new gains.new) reply.new) }
{
    front_end_tables::handle(packet, block, staged, live, gains, reply)
}
