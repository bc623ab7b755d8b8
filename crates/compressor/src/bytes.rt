// Gains and pairs as their bytes, low byte first.
ghost use Rattle.compressor.specs.Compressing.{CompressedBytes};
ghost use Rattle.compressor.specs.Refusals.{status_of, pairs_of};

use super::{PAIRS_ROOM, Refusal};

// Compresses gains: any gains, any room.
pub fn compress(gains: &[u8], pairs: &mut [u8]) -> Result<usize, Refusal>
    ensures { CompressedBytes gains.now pairs.old
        (record { status = status_of result; pairs = pairs_of result; room = pairs.new }) }
{
    super::judge(gains, pairs.len())?;
    // Whole numbers: a last byte alone is left as it is.
    Ok(super::write(gains, &mut pairs[..2 * PAIRS_ROOM]))
}
