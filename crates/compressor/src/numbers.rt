// Gains and pairs as 16-bit numbers.
ghost use Rattle.compressor.specs.Compressing.{CompressedNumbers};
ghost use Rattle.compressor.specs.Refusals.{status_of, pairs_of};

use super::Refusal;

// Compresses gains: any gains, any room.
pub fn compress(gains: &[u16], pairs: &mut [u16]) -> Result<usize, Refusal>
    ensures { CompressedNumbers gains.now pairs.old
        (record { status = status_of result; pairs = pairs_of result; room = pairs.new }) }
{
    super::judge(gains, pairs.len())?;
    Ok(super::write(gains, pairs))
}
