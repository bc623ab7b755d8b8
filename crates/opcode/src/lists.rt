// A list of 16-bit numbers in bytes: the index of the first that does not rise.
ghost use Rattle.std.specs.Prelude.{◌≡◌, ◌+◌, ◌*◌, ◌-◌, ◌≤◌, ltb, length};
ghost use Rattle.wire.specs.Numbers.{word_at};
ghost use Rattle.opcode.specs.Fields.{words_at, «rise»};
ghost use Rattle.opcode.specs.Internal.{stretch_steps, RisenTo};

// Numbers are compared in stretches of so many steps from one to the next, with no test in between
// of where the list or the bytes end.
const STRETCH: usize = 5;

// The index of the first of count numbers from a place on that is not above the one before it,
// count for none: a place is reckoned from it either way.
pub fn rise(s: &[u8], at: usize, count: usize) -> usize
    requires { (at ≤ 65536) × (count ≤ 65536) }
    ensures { (result ≡ «rise» (words_at s.now at count)) × (result ≤ count) }
{
    let inside = within(s, at, count);
    let mut i = 0;
    // No `for`: the walk goes on from the index that the stretches came to.
    while i + STRETCH < inside {
        let risen = stretch(s, at + 2 * i);
        if risen <= STRETCH {
            return i + risen;
        }
        i += STRETCH;
    }
    walk(s, at, count, i)
}

// All of count numbers if they lie within s, else none: what is missing counts as 0, and is walked.
fn within(s: &[u8], at: usize, count: usize) -> usize
    requires { (at ≤ 65536) × (count ≤ 65536) }
    ensures { (result ≤ count) × (2 * result ≤ length s.now - at) }
{
    if s.len() < at + 2 * count { 0 } else { count }
}

// The index of the first fault as above, of the numbers of one stretch.
fn stretch(s: &[u8], at: usize) -> usize
    requires { at + 2 * (stretch_steps + 1) ≤ length s.now }
    ensures { (result ≡ «rise» (words_at s.now at (stretch_steps + 1))) × (result ≤ stretch_steps + 1) }
{
    for i in 0..STRETCH {
        if !next_above(s, at + 2 * i) {
            return i + 1;
        }
    }
    STRETCH + 1
}

// Whether the number behind the one at a place is above it.
pub fn next_above(s: &[u8], at: usize) -> bool
    requires { at + 4 ≤ length s.now }
    ensures { result ≡ ltb (word_at s.now at) (word_at s.now (at + 2)) }
{
    wire::number(s[at], s[at + 1]) < wire::number(s[at + 2], s[at + 3])
}

// The index of the first fault as above, one number after the other, from an index on up to which
// they are known to rise.
fn walk(s: &[u8], at: usize, count: usize, from: usize) -> usize
    requires { (at ≤ 65536) × (count ≤ 65536) × RisenTo s.now at count from }
    ensures { (result ≡ «rise» (words_at s.now at count)) × (result ≤ count) }
{
    for i in from + 1..count {
        let before = at + 2 * (i - 1);
        if wire::word(s, before + 2) <= wire::word(s, before) {
            return i;
        }
    }
    count
}
