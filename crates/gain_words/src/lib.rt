// Words of gains, one by one or as pairs of a run and a gain: which of them is at fault, what runs
// add up to, and whether they go past a colour's gains.
#![tactic(auto)]

ghost use Rattle.std.specs.Prelude.{◌≡◌, ◌≤◌};
ghost use Rattle.gain_words.specs.Gains.{«first_large»};
ghost use Rattle.gain_words.specs.Pairs.{colour_gains, «pair_fault», «run_wrong», runs_beyond, sum_runs};

use wire::Element;

// The highest gain (rule 5.8).
pub const MOST_GAIN: u16 = 8191;

// The gains of one colour (rule 5.8), and so many in the longest run (rule 5.11).
pub const COLOUR_GAINS: usize = 2016;

pub const LONGEST_RUN: u16 = COLOUR_GAINS as u16;

// Whether a run is 0, or longer than a colour.
fn run_wrong(run: u16) -> bool
    ensures { result ≡ «run_wrong» run }
{
    !((1 <= run) & (run <= LONGEST_RUN))
}

// The index of the first gain that is above the highest, the number of gains for none: the place of
// a fault is reckoned from it either way, so that no Option is plainer.
pub fn first_large<T: Element>(gains: &[T]) -> usize
    ensures { result ≡ «first_large» (T.numbers gains.now) }
{
    let n = T::count(gains);
    for i in 0..n {
        if MOST_GAIN < T::number(gains, i) {
            return i;
        }
    }
    n
}

// The index of the first word at fault, a pair's run before its gain; the number of words in pairs
// for none, as above.
pub fn pair_fault<T: Element>(pairs: &[T]) -> usize
    ensures { result ≡ «pair_fault» (T.numbers pairs.now) }
{
    let n = T::count(pairs) / 2;
    for k in 0..n {
        if run_wrong(T::number(pairs, 2 * k)) {
            return 2 * k;
        }
        if MOST_GAIN < T::number(pairs, 2 * k + 1) {
            return 2 * k + 1;
        }
    }
    2 * n
}

// Whether the runs of pairs, from a start on, go past a colour's gains. It stops as soon as they do,
// so that no sum wraps.
pub fn runs_past<T: Element>(start: usize, pairs: &[T]) -> bool
    ensures { result ≡ runs_beyond start (T.numbers pairs.now) }
{
    let mut end = start;
    for k in 0..T::count(pairs) / 2 {
        if COLOUR_GAINS < end {
            return true;
        }
        end += T::number(pairs, 2 * k) as usize;
    }
    COLOUR_GAINS < end
}

// The sum of the runs of pairs that do not go past a colour's gains.
pub fn runs_sum<T: Element>(pairs: &[T]) -> usize
    requires { sum_runs (T.numbers pairs.now) ≤ colour_gains }
    ensures { result ≡ sum_runs (T.numbers pairs.now) }
{
    let mut sum = 0;
    for k in 0..T::count(pairs) / 2 {
        sum += T::number(pairs, 2 * k) as usize;
    }
    sum
}
