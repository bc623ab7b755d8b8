// Upload planning on lists that are lent as their bytes, low byte first. It works where the bytes
// lie, and its promise speaks of the numbers that they hold. It is planning's, which numbers share;
// these two keep the promise made of bytes.
#![tactic(auto)]

ghost use Rattle.std.specs.Prelude.{◌≡◌};
ghost use Rattle.upload.specs.Plain.{MapsLent};
ghost use Rattle.upload.specs.Planning.{MeasuredBytes, PlannedBytes};
ghost use Rattle.batch.specs.Sending.{packets_of, bytes_of};
ghost use Rattle.planning.specs.Refusals.{status_of};

use batch::Sent;
use planning::{Lists, Maps, Refusal};

// The least bytes for an upload, from the last point back: fills the room and the choices, as far
// as they reach. A last part of a number in the room stays.
pub fn measure(held: &[u8], wanted: &[u8], room: &mut [u8], choices: &mut [u8], n: usize) -> u32
    requires { MapsLent 4 n held.now wanted.now }
    ensures { MeasuredBytes n held.now wanted.now room.old choices.old
        result room.new choices.new }
{
    planning::measure(&Maps::new(held, wanted), room, choices, n)
}

// Plans the upload of wanted over held: the plan, the working room, the choices and the batch of
// packets.
pub fn plan(
    points: u32,
    held: &[u8],
    wanted: &[u8],
    plan: &mut [u8],
    room: &mut [u8],
    choices: &mut [u8],
    batch: &mut [u8],
) -> Result<Sent, Refusal>
    ensures { PlannedBytes points held.now wanted.now
        (record { plan = plan.old; room = room.old; choices = choices.old; batch = batch.old })
        (record {
          status = status_of result;
          packets = packets_of result;
          bytes = bytes_of result;
          left =
              record { plan = plan.new; room = room.new; choices = choices.new; batch = batch.new };
        }) }
{
    let maps = Maps::new(held, wanted);
    let mut lists = Lists {
        plan,
        room,
        choices,
        batch,
    };
    planning::plan(points, &maps, &mut lists)
}
