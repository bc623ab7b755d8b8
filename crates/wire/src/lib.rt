// Bytes and numbers: what every layer above reads, sums and copies with.
#![tactic(auto)]

ghost use Rattle.std.specs.Prelude.{◌≡◌, ◌+◌, ◌*◌, ◌<◌, ◌≤◌, [], ◌∷◌, length, take, drop};
ghost use Rattle.std.proofs.Math.Seq.{paste};
ghost use Rattle.std.proofs.lemmas.List.Edits.{sets};
ghost use Rattle.wire.specs.Numbers.{byte_at, word_at, long_at, word_bytes};
ghost use Rattle.wire.specs.Checksum.{«checksum», ChecksumAgrees};

pub mod element;
pub mod refusal;

pub use element::{Element, part};
pub use refusal::Refusal;

// The most bytes of a packet and of a reply.
pub const LONGEST: usize = 512;

// The number of two bytes, low byte first. By their sum: with from_le_bytes a compiler compares it
// with a limit as a word of 16 bits, which was measured slower than the high byte alone.
#[inline(always)]
pub fn number(low: u8, high: u8) -> u16
    ensures { result ≡ low + 256 * high }
{
    low as u16 + 256 * (high as u16)
}

// The byte at i, 0 past the end: a place that a packet does not have needs no test of its own.
pub fn byte(s: &[u8], i: usize) -> usize
    ensures { (result ≡ byte_at s.now i) × (result < 256) }
{
    if i < s.len() { s[i] as usize } else { 0 }
}

// The 16-bit number at i, low byte first. By sum, since a byte past the end counts as 0.
pub fn word(s: &[u8], i: usize) -> usize
    ensures { (result ≡ word_at s.now i) × (result < 65536) }
{
    if i < s.len() {
        byte(s, i) + 256 * byte(s, i + 1)
    } else {
        0
    }
}

// The 32-bit number at i, low byte first. By sum, as above.
pub fn long(s: &[u8], i: usize) -> usize
    ensures { (result ≡ long_at s.now i) × (result < 4294967296) }
{
    if i < s.len() {
        let low = word(s, i);
        if i + 1 < s.len() {
            low + 65536 * word(s, i + 2)
        } else {
            low
        }
    } else {
        0
    }
}

// The checksum of the first n bytes, as a weighted sum: a byte's weight is the number of bytes from it on, and of weight and sum only the low byte counts.
// The rule's two sums are taken byte by byte, since the second waits for the first. Products of 16 bits the compiler takes several at a time.
pub fn checksum(s: &[u8], n: usize) -> usize
    requires { n ≤ length s.now }
    ensures { (result ≡ «checksum» (take n s.now)) × (result < 256) × ChecksumAgrees (take n s.now) }
{
    let mut weight = (n % 256) as u16;
    let mut sum: usize = 0;
    for i in 0..n {
        sum = (sum + (weight * s[i] as u16) as usize) % 256;
        // One less.
        weight = (weight + 255) % 256;
    }
    sum
}

// Copies n bytes of src, from a place on, over those of dst from a place on. One by one, since
// copy_from_slice was measured slower where they are few.
pub fn copy(dst: &mut [u8], at: usize, src: &[u8], from: usize, n: usize)
    requires { (at + n ≤ length dst.old) × (from + n ≤ length src.now) }
    ensures { dst.new ≡ paste dst.old at (drop from src.now) n }
{
    for k in 0..n {
        dst[at + k] = src[from + k];
    }
}

// Stores a byte.
pub fn put_byte(dst: &mut [u8], at: usize, v: usize)
    requires { (at < length dst.old) × (v < 256) }
    ensures { dst.new ≡ sets dst.old at (v ∷ []) }
{
    dst[at] = v as u8;
}

// Stores a 16-bit number, low byte first.
pub fn put_word(dst: &mut [u8], at: usize, v: usize)
    requires { (at + 1 < length dst.old) × (v < 65536) }
    ensures { dst.new ≡ sets dst.old at (word_bytes v) }
{
    dst[at..at + 2].copy_from_slice(&(v as u16).to_le_bytes());
}

// The bytes from a place on, none past the end.
pub fn behind(s: &[u8], at: usize) -> &[u8]
    ensures { result.now ≡ drop at s.now }
{
    if at < s.len() { &s[at..] } else { &[] }
}
