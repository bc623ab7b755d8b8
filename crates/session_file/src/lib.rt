// Reads the records of a session file through windows: each call takes some bytes from the start
// of a window, and tells where a record that has become whole stands.
#![tactic(auto)]

ghost use Rattle.std.specs.Prelude.{◌+◌, ◌-◌, ◌≤◌, ◌<◌, ◌≡◌, true, eqb, length, take, get_or};
ghost use Rattle.wire.specs.Numbers.{word_at};
ghost use Rattle.session_file.specs.Session.{preamble, preamble_size, Files};
ghost use Rattle.session_file.specs.Windows.{kept_size, most_record, ReaderStep, matched_of};
ghost use Rattle.session_file.specs.Windows.{found, Lies};
ghost use Rattle.session_file.specs.Windows.{nothing, preamble_by, whole_record, lacking};
ghost use Rattle.session_file.specs.Windows.{taking, kept_after, after_taking};
ghost use Rattle.session_file.specs.Windows.{«lies_whole», «is_cut», whole_numbers};

// Bytes of preamble.
pub const PREAMBLE_SIZE: usize = 5;

// A record's length.
const LENGTH_SIZE: usize = 2;

// Bytes that are kept of a record under way: its length, and one byte more than a packet may have.
const PACKET_KEPT: usize = wire::LONGEST + 1;

pub const KEPT_SIZE: usize = LENGTH_SIZE + PACKET_KEPT;

// The longest record, with its length.
pub const MOST_RECORD: usize = LENGTH_SIZE + 65535;

// How far the preamble has come: so many of its bytes are there and right; or one is wrong.
#[derive(Clone, Copy, PartialEq, Eq)]
pub enum Preamble {
    Matched(usize),
    Spoiled,
}

impl Preamble {
    // Whether all of them are.
    pub fn is_whole(self) -> bool
        ensures { result ≡ eqb (matched_of self) preamble_size }
    {
        match self {
            Preamble::Matched(n) => n == PREAMBLE_SIZE,
            Preamble::Spoiled => false,
        }
    }
}

// Where the packet of a whole record stands: in the window, or in what is kept.
#[derive(Clone, Copy)]
pub enum Found {
    Window { start: usize, end: usize },
    Kept { start: usize, end: usize },
}

impl Found {
    // The packet.
    pub fn packet<'a>(self, window: &'a [u8], kept: &'a [u8]) -> &'a [u8]
        requires { Lies self window.now kept.now }
        ensures { result.now ≡ found self window.now kept.now }
    {
        match self {
            Found::Window { start, end } => &window[start..end],
            Found::Kept { start, end } => &kept[start..end],
        }
    }
}

// What a step took: so many bytes of the window; how much there is then of the preamble and of the
// record under way; and the packet of a record that has become whole.
#[derive(Clone, Copy)]
pub struct Taken {
    pub size: usize,
    pub matched: Preamble,
    pub have: usize,
    pub found: Option<Found>,
}

// Takes bytes of the window: one of the preamble, a record that lies whole in the window, which is
// not copied, or as many as the record under way is known to lack; all of them, where the preamble
// was wrong.
pub fn next(window: &[u8], matched: Preamble, have: usize, kept: &mut [u8]) -> Taken
    requires { (0 < length window.now) × (kept_size ≤ length kept.old) × (have ≤ most_record) }
    ensures { ReaderStep window.now matched have kept.old result kept.new }
{
    let Preamble::Matched(n) = matched else {
        return none_yet(window.len(), matched, have);
    };
    if n == PREAMBLE_SIZE {
        return record_bytes(window, have, kept);
    }
    if n < PREAMBLE_SIZE {
        return preamble_byte(window[0], n, have);
    }
    none_yet(window.len(), matched, have)
}

// A byte of the preamble.
fn preamble_byte(byte: u8, matched: usize, have: usize) -> Taken
    requires { matched < preamble_size }
    ensures { result ≡ nothing 1 (preamble_by matched byte) have }
{
    if byte == preamble_at(matched) {
        return none_yet(1, Preamble::Matched(matched + 1), have);
    }
    none_yet(1, Preamble::Spoiled, have)
}

// Bytes were taken, and no record has become whole.
fn none_yet(size: usize, matched: Preamble, have: usize) -> Taken
    ensures { result ≡ nothing size matched have }
{
    Taken {
        size,
        matched,
        have,
        found: None,
    }
}

// So many were, and with them one has.
fn whole(size: usize, found: Found) -> Taken
    ensures { result ≡ whole_numbers size found }
{
    Taken {
        size,
        matched: Preamble::Matched(PREAMBLE_SIZE),
        have: 0,
        found: Some(found),
    }
}

// The bytes of preamble.
fn preamble_at(i: usize) -> u8
    requires { i < preamble_size }
    ensures { result ≡ get_or preamble i 0 }
{
    let bytes = b"PJL\x01\x00";
    bytes[i]
}

// Bytes of a record.
fn record_bytes(window: &[u8], have: usize, kept: &mut [u8]) -> Taken
    requires { (0 < length window.now) × (kept_size ≤ length kept.old) × (have ≤ most_record) }
    ensures { ReaderStep window.now (Preamble.Matched preamble_size) have kept.old result kept.new }
{
    if lies_whole(window, have) {
        return whole_in(window);
    }
    more(window, have, kept)
}

// Whether a record begins here, and lies in the window with all its bytes.
fn lies_whole(window: &[u8], have: usize) -> bool
    ensures { result ≡ «lies_whole» window.now have }
{
    have == 0 && LENGTH_SIZE + wire::word(window, 0) <= window.len()
}

// Such a record.
fn whole_in(window: &[u8]) -> Taken
    requires { 2 + word_at window.now 0 ≤ length window.now }
    ensures { result ≡ whole_record (word_at window.now 0) }
{
    let size = wire::word(window, 0);
    let end = LENGTH_SIZE + size.min(PACKET_KEPT);
    whole(
        LENGTH_SIZE + size,
        Found::Window {
            start: LENGTH_SIZE,
            end,
        },
    )
}

// Bytes of a record that the window has in part.
fn more(window: &[u8], have: usize, kept: &mut [u8]) -> Taken
    requires { (0 < length window.now) × (kept_size ≤ length kept.old) × (have ≤ most_record) }
    ensures { (kept.new
        ≡ kept_after kept.old have (take (taking window.now have kept.old) window.now))
        × (result ≡ after_taking (taking window.now have kept.old)
        (have + taking window.now have kept.old) kept.new)
        × (result.have ≤ most_record) × (1 ≤ taking window.now have kept.old) }
{
    let n = missing(have, kept).min(window.len());
    keep(&window[..n], have, kept);
    judged(n, have + n, kept)
}

// How many bytes the record under way lacks, as far as is known: first those of its length.
fn missing(have: usize, kept: &[u8]) -> usize
    ensures { (result ≡ lacking have kept.now) × (1 ≤ result) × (result ≤ most_record) }
{
    if have < LENGTH_SIZE {
        return LENGTH_SIZE - have;
    }
    let size = LENGTH_SIZE + wire::word(kept, 0);
    if size <= have {
        return 1;
    }
    size - have
}

// Keeps the bytes taken, as far as there is room for them.
fn keep(bytes: &[u8], have: usize, kept: &mut [u8])
    requires { kept_size ≤ length kept.old }
    ensures { kept.new ≡ kept_after kept.old have bytes.now }
{
    if have < KEPT_SIZE {
        let n = bytes.len().min(KEPT_SIZE - have);
        kept[have..have + n].copy_from_slice(&bytes[..n]);
    }
}

// The record under way has so many bytes: whole, or not.
fn judged(size: usize, have: usize, kept: &[u8]) -> Taken
    ensures { (result ≡ after_taking size have kept.now) × (result.have ≤ most_record) }
{
    if is_cut(have, kept) {
        return none_yet(size, Preamble::Matched(PREAMBLE_SIZE), have);
    }
    let end = have.min(KEPT_SIZE);
    whole(
        size,
        Found::Kept {
            start: LENGTH_SIZE,
            end,
        },
    )
}

// Whether bytes of it are lacking.
fn is_cut(have: usize, kept: &[u8]) -> bool
    ensures { (result ≡ «is_cut» have kept.now) × (result ≡ true → have ≤ most_record) }
{
    have < LENGTH_SIZE || have < LENGTH_SIZE + wire::word(kept, 0)
}

// Nothing to run: its contract is what holds of whole files.
pub fn theorems()
    ensures { Files }
{}
