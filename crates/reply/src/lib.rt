// Replies: writing one behind its three-byte head, and reading one on the host's side.
#![tactic(auto)]

ghost use Rattle.std.specs.Prelude.{◌≡◌, ◌+◌, ◌<◌, ◌≤◌, length, take, drop};
ghost use Rattle.wire.specs.Buffers.{Overwrites};
ghost use Rattle.reply.specs.Reply.{reply_bytes};
ghost use Rattle.reply.specs.Answer.{reply_answer, reply_number};
ghost use Rattle.reply.specs.Reading.{ReplyRead, «checksum_wrong»};

use wire::LONGEST;

// What a reply says: its status, and the place and the size of its data. The status stays a number:
// it is what the reply holds, and what a host prints (rule 3.5).
#[derive(Clone, Copy, Debug, PartialEq, Eq)]
pub struct Reply {
    pub status: u8,
    pub at: usize,
    pub size: usize,
}

// Rule 3.5: why bytes are no reply, with the number of each. None of these names a place.
#[derive(Clone, Copy, Debug, PartialEq, Eq)]
pub enum ReplyRefusal {
    TooShort = 2,
    TooLong = 3,
    LengthDiffers = 4,
    ChecksumDiffers = 5,
    StatusWrong = 10,
}

impl ReplyRefusal {
    pub fn number(self) -> u8
        ensures { result ≡ reply_number self }
    {
        self as u8
    }
}

// Reads a reply; checksum says whether one is expected.
#[tactic(auto, using(crate::proofs::Promises::reply_promised), unfolding(crate::specs::Reading::reply_reading))]
pub fn read_reply(reply: &[u8], checksum: bool) -> Result<Reply, ReplyRefusal>
    ensures { ReplyRead reply.now checksum (reply_answer result) }
{
    let n = reply.len();
    let extra = checksum as usize;
    if n < 3 + extra {
        return Err(ReplyRefusal::TooShort);
    }
    if LONGEST < n {
        return Err(ReplyRefusal::TooLong);
    }
    let size = n - 3 - extra;
    if wire::word(reply, 1) != size {
        return Err(ReplyRefusal::LengthDiffers);
    }
    if checksum_wrong(reply, checksum) {
        return Err(ReplyRefusal::ChecksumDiffers);
    }
    let status = reply[0];
    if 12 < status {
        return Err(ReplyRefusal::StatusWrong);
    }
    Ok(Reply {
        status,
        at: 3,
        size,
    })
}

// Whether a checksum is expected and the last byte is not that of the bytes before it.
fn checksum_wrong(reply: &[u8], checksum: bool) -> bool
    requires { 0 < length reply.now }
    ensures { result ≡ «checksum_wrong» reply.now checksum }
{
    let n = reply.len() - 1;
    checksum && wire::byte(reply, n) != wire::checksum(reply, n)
}

// Puts the head before n bytes of data that stand at place 3, and the checksum behind them if
// checksum is set. Answers the reply's length.
pub fn seal(reply: &mut [u8], status: u8, n: usize, checksum: bool) -> usize
    requires { (n < 65536) × (n + 4 ≤ length reply.old) }
    ensures { Overwrites result (reply_bytes checksum status (take n (drop 3 reply.old)))
        reply.old reply.new }
{
    reply[0] = status;
    wire::put_word(reply, 1, n);
    if checksum {
        let check = wire::checksum(reply, n + 3);
        wire::put_byte(reply, n + 3, check);
        return n + 4;
    }
    n + 3
}
