// The splitter: pairs of a run and a gain into 2Bh packets. What it does stands here once, whatever
// pairs are made of; `numbers` and `bytes` are its two entries.
#![tactic(auto)]

pub mod bytes;
pub mod numbers;

ghost use Rattle.std.specs.Prelude.{◌≡◌, ◌*◌, ◌%◌, ◌≤◌, not, length, eqb, ltb};
ghost use Rattle.wire.specs.First.{first};
ghost use Rattle.gain_words.specs.Pairs.{«pair_fault»};
ghost use Rattle.splitter.specs.Plain.{Splittable};
ghost use Rattle.splitter.specs.Splitting.{batch_room, «values_wrong», split_refusals, split_out};
ghost use Rattle.splitter.specs.Internal.{split_done};
ghost use Rattle.splitter.specs.Refusals.{number_of, status_of};

use batch::{Batch, Sent};
use gain_words::{LONGEST_RUN, MOST_GAIN};
use tables::Table;
use wire::Element;

// The words of a packet that is not the last.
pub const PACKET_WORDS: usize = 250;

// The bytes that hold any batch of packets.
pub const BATCH_ROOM: usize = 8234;

// Rule 10.4, in its order: words that are no pairs, a colour, a run or a gain out of its range, runs
// past the colour, a short batch.
#[derive(Clone, Copy, Debug, PartialEq, Eq)]
pub enum Refusal {
    WordOver,
    ValueWrong,
    RunsPast,
    LentWrong,
}

impl Refusal {
    // Its number.
    pub fn number(self) -> u8
        ensures { result ≡ number_of self }
    {
        match self {
            Refusal::WordOver => 9,
            Refusal::ValueWrong => 10,
            Refusal::RunsPast => 12,
            Refusal::LentWrong => 1,
        }
    }
}

// Whether a run or a gain of a part is out of its range. Without an early return a compiler takes
// many pairs at a time.
fn fault_in<T: Element>(part: &[T]) -> bool
    requires { length (T.numbers part.now) % 2 ≡ 0 }
    ensures { result ≡ ltb («pair_fault» (T.numbers part.now)) (length (T.numbers part.now)) }
{
    let mut wrong = false;
    for k in 0..T::count(part) / 2 {
        let run = T::number(part, 2 * k);
        let gain = T::number(part, 2 * k + 1);
        wrong = wrong | !((1 <= run) & (run <= LONGEST_RUN)) | (MOST_GAIN < gain);
    }
    wrong
}

// The same of all pairs. A list may be of any length, so it is read no further than the part in
// which the first fault lies.
fn some_fault<T: Element>(pairs: &[T]) -> bool
    requires { length (T.numbers pairs.now) % 2 ≡ 0 }
    ensures { result ≡ ltb («pair_fault» (T.numbers pairs.now)) (length (T.numbers pairs.now)) }
{
    let words = T::count(pairs);
    let mut i = 0;
    // No `for` over chunks, for the reason that `cut` has.
    while i < words {
        let n = PACKET_WORDS.min(words - i);
        if fault_in(wire::part(pairs, i, n)) {
            return true;
        }
        i += n;
    }
    false
}

// Whether there are no words, the colour is over 3, or a word is at fault.
fn values_wrong<T: Element>(colour: u32, pairs: &[T]) -> bool
    requires { length (T.numbers pairs.now) % 2 ≡ 0 }
    ensures { result ≡ «values_wrong» colour (T.numbers pairs.now) }
{
    (T::count(pairs) == 0) | (3 < colour) | some_fault(pairs)
}

// The first refusal that applies.
fn judge<T: Element>(colour: u32, start: u32, pairs: &[T], batch: &[u8]) -> Result<(), Refusal>
    ensures { status_of result ≡ first (split_refusals colour start
        (not (eqb (length pairs.now % (2 * T.WIDTH)) 0)) (T.numbers pairs.now) batch.now) }
{
    if pairs.len() % (2 * T::WIDTH) != 0 {
        return Err(Refusal::WordOver);
    }
    if values_wrong(colour, pairs) {
        return Err(Refusal::ValueWrong);
    }
    if gain_words::runs_past(start as usize, pairs) {
        return Err(Refusal::RunsPast);
    }
    if batch.len() < BATCH_ROOM {
        return Err(Refusal::LentWrong);
    }
    Ok(())
}

// Writes the packets, one a turn: each starts where the runs of the one before ended.
fn cut<T: Table>(colour: usize, start: usize, pairs: &[T], batch: &mut Batch) -> Sent
    requires { Splittable colour start (T.numbers pairs.now)
        × (batch_room ≤ length batch.old.buffer.now)
        × (batch.old.filled ≡ 0) }
    ensures written { split_out 0 result.packets result.bytes batch.new.buffer.now
        ≡ split_done colour start (T.numbers pairs.now) batch.old.buffer.now }
    ensures named { batch.new.buffer.ghost_name ≡ batch.old.buffer.ghost_name }
{
    let words = T::count(pairs);
    let mut at = start;
    let mut packets = 0;
    let mut i = 0;
    // No `for` over chunks: of elements that are no whole number, which only `judge` rules out, they
    // would make one packet more.
    while i < words {
        let n = PACKET_WORDS.min(words - i);
        let part = wire::part(pairs, i, n);
        batch.put_pairs(part, colour, at);
        at += gain_words::runs_sum(part);
        packets += 1;
        i += n;
    }
    Sent {
        packets,
        bytes: batch.filled,
    }
}

// The same from the start of a buffer on.
fn write<T: Table>(colour: usize, start: usize, pairs: &[T], batch: &mut [u8]) -> Sent
    requires { Splittable colour start (T.numbers pairs.now) × (batch_room ≤ length batch.old) }
    ensures { split_out 0 result.packets result.bytes batch.new
        ≡ split_done colour start (T.numbers pairs.now) batch.old }
{
    let mut batch = Batch {
        buffer: batch,
        filled: 0,
    };
    cut(colour, start, pairs, &mut batch)
}
