// Upload planning on lists of numbers: maps and plan of 16 bits, working room of 32 bits, choices
// of bytes. It is planning's, which bytes share; these two keep the promise made of numbers.
#![tactic(auto)]

ghost use Rattle.std.specs.Prelude.{◌≡◌, length};
ghost use Rattle.upload.specs.Plain.{MapsLent};
ghost use Rattle.upload.specs.Planning.{Measured, Planned};
ghost use Rattle.batch.specs.Sending.{packets_of, bytes_of};
ghost use Rattle.planning.specs.Refusals.{status_of};

use batch::Sent;
use planning::{Lists, Maps, Refusal};

// The least bytes for an upload, from the last point back: fills the room and the choices, as far
// as they reach.
pub fn measure(held: &[u16], wanted: &[u16], room: &mut [u32], choices: &mut [u8], n: usize) -> u32
    requires { MapsLent 2 n held.now wanted.now }
    ensures { Measured n held.now wanted.now (length room.old) (length choices.old)
        result room.new choices.new }
{
    planning::measure(&Maps::new(held, wanted), room, choices, n)
}

// Plans the upload of wanted over held: the plan, the working room, the choices and the batch of
// packets.
pub fn plan(
    points: u32,
    held: &[u16],
    wanted: &[u16],
    plan: &mut [u16],
    room: &mut [u32],
    choices: &mut [u8],
    batch: &mut [u8],
) -> Result<Sent, Refusal>
    ensures { Planned points held.now wanted.now
        (record { plan = plan.old; room = room.old; choices = choices.old; batch = batch.old })
        (record {
          status = status_of result;
          packets = packets_of result;
          bytes = bytes_of result;
          left =
              record { plan = plan.new; room = room.new; choices = choices.new; batch = batch.new };
        }) }
{
    let maps = Maps::new(held, wanted);
    let mut lists = Lists {
        plan,
        room,
        choices,
        batch,
    };
    planning::plan(points, &maps, &mut lists)
}
