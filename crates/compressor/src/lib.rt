// The compressor: gains into the fewest pairs of a run and a gain. What it does stands here once,
// whatever gains and pairs are made of; `numbers` and `bytes` are its two entries.
#![tactic(auto)]

pub mod bytes;
pub mod numbers;

ghost use Rattle.std.specs.Prelude.{◌≡◌, [], ◌∷◌, ◌+◌, ◌*◌, ◌%◌, ◌≤◌, ◌<◌, not, length, drop, get_or, eqb, ltb};
ghost use Rattle.std.proofs.lemmas.List.Edits.{sets};
ghost use Rattle.wire.specs.First.{first};
ghost use Rattle.compressor.specs.Compressing.{pairs_room, «count_wrong», «some_large»};
ghost use Rattle.compressor.specs.Internal.{lead, refusals_of, PairsWritten};
ghost use Rattle.compressor.specs.Refusals.{number_of, status_of};

use gain_words::{COLOUR_GAINS, MOST_GAIN};
use tables::Table;
use wire::Element;

// The words that the pairs of any colour need.
pub const PAIRS_ROOM: usize = 4032;

// Rule 10.2: why gains are refused: they are not those of a colour, or their room is short.
#[derive(Clone, Copy, Debug, PartialEq, Eq)]
pub enum Refusal {
    GainsWrong,
    LentWrong,
}

impl Refusal {
    // Its number.
    pub fn number(self) -> u8
        ensures { result ≡ number_of self }
    {
        match self {
            Refusal::GainsWrong => 10,
            Refusal::LentWrong => 1,
        }
    }
}

// Whether a number of gains is none that a colour has.
fn count_wrong(count: usize) -> bool
    ensures { result ≡ «count_wrong» count }
{
    !(1..=COLOUR_GAINS).contains(&count)
}

// Whether a gain is too large. Without an early return a compiler takes many gains at a time.
fn some_large<T: Element>(gains: &[T]) -> bool
    ensures { result ≡ «some_large» (T.numbers gains.now) }
{
    let mut most = 0;
    for i in 0..T::count(gains) {
        most = T::number(gains, i).max(most);
    }
    MOST_GAIN < most
}

// A byte over, a wrong number of gains, or one that is too large; then a room of too few elements.
fn judge<T: Element>(gains: &[T], room: usize) -> Result<(), Refusal>
    ensures { status_of result ≡ first (refusals_of
        (not (eqb (length gains.now % T.WIDTH) 0))
        (length (T.numbers gains.now)) («some_large» (T.numbers gains.now))
        (ltb room (T.WIDTH * pairs_room))) }
{
    let odd = gains.len() % T::WIDTH != 0;
    if odd | count_wrong(T::count(gains)) | some_large(gains) {
        return Err(Refusal::GainsWrong);
    }
    if room < T::WIDTH * PAIRS_ROOM {
        return Err(Refusal::LentWrong);
    }
    Ok(())
}

// How many gains from a place on are the one there.
fn run_at<T: Element>(gains: &[T], at: usize, gain: u16) -> usize
    requires { (at < length (T.numbers gains.now)) × (gain ≡ get_or (T.numbers gains.now) at 0) }
    ensures { result ≡ lead gain (drop at (T.numbers gains.now)) }
{
    let n = T::count(gains);
    for end in at + 1..n {
        if T::number(gains, end) != gain {
            return end - at;
        }
    }
    n - at
}

// Stores pair k.
fn put_pair<T: Table>(pairs: &mut [T], k: usize, run: usize, gain: u16)
    requires { (2 * k + 1 < length (T.numbers pairs.old)) × (run < 65536) }
    ensures { T.numbers pairs.new ≡ sets (T.numbers pairs.old) (2 * k) (run ∷ gain ∷ []) }
{
    T::put(pairs, 2 * k, run as u16);
    T::put(pairs, 2 * k + 1, gain);
}

// Writes the pairs, a run a turn, and says how many they are.
fn write<T: Table>(gains: &[T], pairs: &mut [T]) -> usize
    requires { (length (T.numbers gains.now) < 65536)
        × (2 * length (T.numbers gains.now) ≤ length (T.numbers pairs.old)) }
    ensures { PairsWritten (λ ws. ws) (T.numbers gains.now) (T.numbers pairs.old)
        result (T.numbers pairs.new) }
{
    let n = T::count(gains);
    let mut i = 0;
    let mut k = 0;
    // No `for`: a step is a run.
    while i < n {
        let gain = T::number(gains, i);
        let run = run_at(gains, i, gain);
        put_pair(pairs, k, run, gain);
        i += run;
        k += 1;
    }
    k
}
