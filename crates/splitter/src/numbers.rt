// Pairs as 16-bit numbers.
ghost use Rattle.batch.specs.Sending.{packets_of, bytes_of};
ghost use Rattle.splitter.specs.Splitting.{SplitNumbers};
ghost use Rattle.splitter.specs.Refusals.{status_of};

use super::Refusal;
use batch::Sent;

// Cuts pairs into packets for a colour, from a start on: any colour, any start, any pairs, any
// batch.
pub fn split(colour: u32, start: u32, pairs: &[u16], batch: &mut [u8]) -> Result<Sent, Refusal>
    ensures { SplitNumbers colour start pairs.now batch.old
        (record { status = status_of result; packets = packets_of result; bytes = bytes_of result; batch = batch.new }) }
{
    super::judge(colour, start, pairs, batch)?;
    Ok(super::write(colour as usize, start as usize, pairs, batch))
}
