// Tables of 16-bit numbers, however they are lent: filled, written from a packet's bytes and runs,
// and turned into a reply's bytes.
#![tactic(auto)]

ghost use Rattle.std.specs.Prelude.{◌≡◌, ◌+◌, ◌*◌, ◌≤◌, ◌<◌, length, replicate, set};
ghost use Rattle.std.proofs.lemmas.List.Edits.{sets};
ghost use Rattle.gain_words.specs.Pairs.{expand, sum_runs};
ghost use Rattle.wire.specs.Tables.{words, bytes};
ghost use Rattle.tables.specs.Behind.{SameBehind};

use wire::Element;

// What is written in a table, and out of it: numbers one by one, bytes as they lie. What stands
// behind the numbers stays, so of bytes both clauses say each one (`each-byte` of proofs/Behind).
pub trait Table: Element {
    // Number i is v.
    fn put(table: &mut [Self], i: usize, v: u16)
        requires { i < length (Self.numbers table.old) }
        ensures numbers { Self.numbers table.new ≡ set (Self.numbers table.old) i v }
        ensures behind { SameBehind Self.WIDTH Self.numbers table.new table.old };

    // The numbers in src, low byte first, from a place on.
    fn words_in(table: &mut [Self], at: usize, src: &[u8])
        requires { at + length (words src.now) ≤ length (Self.numbers table.old) }
        ensures numbers { Self.numbers table.new
            ≡ sets (Self.numbers table.old) at (words src.now) }
        ensures behind { SameBehind Self.WIDTH Self.numbers table.new table.old };

    // The bytes of a part's numbers, into dst from a place on.
    fn words_out(dst: &mut [u8], at: usize, part: &[Self])
        requires { at + 2 * length (Self.numbers part.now) ≤ length dst.old }
        ensures { dst.new ≡ sets dst.old at (bytes (Self.numbers part.now)) };
}

impl Table for u16 {
    fn put(table: &mut [u16], i: usize, v: u16) {
        table[i] = v;
    }

    fn words_in(table: &mut [u16], at: usize, src: &[u8]) {
        for i in 0..u8::count(src) {
            table[at + i] = u8::number(src, i);
        }
    }

    fn words_out(dst: &mut [u8], at: usize, part: &[u16]) {
        for i in 0..part.len() {
            wire::put_word(dst, at + 2 * i, part[i] as usize);
        }
    }
}

impl Table for u8 {
    fn put(table: &mut [u8], i: usize, v: u16) {
        wire::put_word(table, 2 * i, v as usize);
    }

    fn words_in(table: &mut [u8], at: usize, src: &[u8]) {
        wire::copy(table, 2 * at, src, 0, 2 * u8::count(src));
    }

    fn words_out(dst: &mut [u8], at: usize, part: &[u8]) {
        wire::copy(dst, at, part, 0, 2 * u8::count(part));
    }
}

// n numbers from a place on are v.
pub fn fill<T: Table>(table: &mut [T], at: usize, n: usize, v: u16)
    requires { at + n ≤ length (T.numbers table.old) }
    ensures numbers { T.numbers table.new ≡ sets (T.numbers table.old) at (replicate n v) }
    ensures behind { SameBehind T.WIDTH T.numbers table.new table.old }
{
    for i in 0..n {
        T::put(table, at + i, v);
    }
}

// What pairs of a run and a gain in src stand for, from a place on.
pub fn runs_in<T: Table>(table: &mut [T], at: usize, src: &[u8])
    requires { at + sum_runs (words src.now) ≤ length (T.numbers table.old) }
    ensures numbers { T.numbers table.new ≡ sets (T.numbers table.old) at (expand (words src.now)) }
    ensures behind { SameBehind T.WIDTH T.numbers table.new table.old }
{
    let mut place = at;
    for k in 0..u8::count(src) / 2 {
        let run = u8::number(src, 2 * k) as usize;
        fill(table, place, run, u8::number(src, 2 * k + 1));
        place += run;
    }
}
