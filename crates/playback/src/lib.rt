// Replays a session file, window by window: a line for each record that becomes whole.
#![tactic(auto)]

ghost use Rattle.std.specs.Prelude.{◌+◌, ◌≤◌, ◌<◌, ◌≡◌, length, take};
ghost use Rattle.wire.specs.Refusals.{status_of};
ghost use Rattle.text.specs.Text.{decimal, hex, Puts};
ghost use Rattle.text.specs.Plain.{Decimal, Hex};
ghost use Rattle.text.specs.Page.{PutOn};
ghost use Rattle.front_end.specs.State.{reply_room, reset_out};
ghost use Rattle.front_end.specs.Demands.{Resets};
ghost use Rattle.front_end.specs.Step.{step};
ghost use Rattle.session_file.specs.Windows.{kept_size, most_record};
ghost use Rattle.playback.specs.Device.{state_of, step_of, StillLent};
ghost use Rattle.playback.specs.Replay.{line, cut_text, end_line};
ghost use Rattle.playback.specs.WholeFiles.{WholeFiles};
ghost use Rattle.playback.specs.Windows.{line_room, most_records, «has_room», «rooms_right», Answered, Turned, WindowReplayed};
ghost use Rattle.playback.specs.Windows.{cut_room, closing_room, closing_text, unreadable_text};

use front_end::{Outcome, REPLY_ROOM};
use session_file::{KEPT_SIZE, MOST_RECORD, Preamble};
use text::Page;
use wire::Refusal;

// Room for any line: two numbers, 512 bytes in hex, a blank and a newline.
pub const LINE_ROOM: usize = 1578;

// Room for the lines behind the last record.
const CLOSING_ROOM: usize = 50;

const MOST_RECORDS: u64 = u64::MAX;

// How far a replay has come: in the window and in the output, in the preamble, in records, and in
// the bytes of the record under way.
#[derive(Clone, Copy)]
pub struct Progress {
    pub at: usize,
    pub size: usize,
    pub matched: Preamble,
    pub number: u64,
    pub have: usize,
}

// What packets are handled on: the lists of a state, and the reply buffer, lent to a replay.
#[derive(Drop)]
pub struct Device<'a> {
    pub block: &'a mut [u8],
    pub staged: &'a mut [u16],
    pub live: &'a mut [u16],
    pub gains: &'a mut [u16],
    pub reply: &'a mut [u8],
}

impl Device<'_> {
    // The state that a session begins with, where the lists are as long as they are to be.
    pub fn reset(&mut self) -> Result<(), Refusal>
        ensures reset { Resets (state_of self.old)
            (reset_out (status_of result) (state_of self.new)) }
        ensures same { StillLent self.old self.new }
    {
        front_end_numbers::reset(self.block, self.staged, self.live, self.gains)
    }

    // A packet, to the front end.
    fn handle(&mut self, packet: &[u8]) -> Outcome
        ensures outcome { step_of result self.new
            ≡ step packet.now (state_of self.old) self.old.reply.now }
        ensures same { StillLent self.old self.new }
    {
        front_end_numbers::handle(
            packet,
            self.block,
            self.staged,
            self.live,
            self.gains,
            self.reply,
        )
    }

    // The first bytes of the reply buffer.
    fn replied(&self, size: usize) -> &[u8]
        requires { size ≤ length self.now.reply.now }
        ensures { result.now ≡ take size self.now.reply.now }
    {
        &self.reply[..size]
    }
}

// Replays a window from its start, behind what came before it, and prints over the start of the
// output. Takes all of the window, unless before its end the output is full or no more records can
// be counted; nothing, where a room is too short.
pub fn replay(
    window: &[u8],
    from: Progress,
    kept: &mut [u8],
    device: &mut Device,
    out: &mut [u8],
) -> Progress
    ensures replayed { WindowReplayed window.now from kept.old
        (state_of device.old) device.old.reply.now out.old
        result kept.new (state_of device.new) device.new.reply.now out.new }
    ensures same { StillLent device.old device.new }
{
    let mut p = Progress {
        at: 0,
        size: 0,
        ..from
    };
    if !rooms_right(kept, device, from.have) {
        return p;
    }
    // No `for`: a step is as many bytes as a turn took.
    while p.at < window.len() && has_room(p.size, p.number, out) {
        p = turn(window, p, kept, device, out);
    }
    p
}

// Whether what is lent is long enough, and what is under way no longer than a record.
fn rooms_right(kept: &[u8], device: &Device, have: usize) -> bool
    ensures { result ≡ «rooms_right» kept.now device.now.reply.now have }
{
    KEPT_SIZE <= kept.len() && REPLY_ROOM <= device.reply.len() && have <= MOST_RECORD
}

// Whether another line can be printed, and its record counted.
fn has_room(size: usize, number: u64, out: &[u8]) -> bool
    ensures { result ≡ «has_room» size number out.now }
{
    LINE_ROOM <= out.len() && size <= out.len() - LINE_ROOM && number < MOST_RECORDS
}

// Some bytes of the window, and the line of a record that has become whole by them.
fn turn(
    window: &[u8],
    p: Progress,
    kept: &mut [u8],
    device: &mut Device,
    out: &mut [u8],
) -> Progress
    requires { (p.at < length window.now) × (kept_size ≤ length kept.old)
        × (reply_room ≤ length device.old.reply.now) × (p.have ≤ most_record)
        × (p.size + line_room ≤ length out.old) × (p.number < most_records) }
    ensures turned { Turned window.now p kept.old
        (state_of device.old) device.old.reply.now out.old
        result kept.new (state_of device.new) device.new.reply.now out.new }
    ensures same { StillLent device.old device.new }
{
    let rest = &window[p.at..];
    let t = session_file::next(rest, p.matched, p.have, kept);
    let q = Progress {
        at: p.at + t.size,
        matched: t.matched,
        have: t.have,
        ..p
    };
    match t.found {
        None => q,
        Some(found) => answer(found.packet(rest, kept), q, device, out),
    }
}

// The packet of a record: to the front end, and its line to the output.
fn answer(packet: &[u8], q: Progress, device: &mut Device, out: &mut [u8]) -> Progress
    requires { (q.size + line_room ≤ length out.old) × (q.number < most_records) }
    ensures answered { Answered packet.now q (state_of device.old) device.old.reply.now out.old
        result (state_of device.new) device.new.reply.now out.new }
    ensures same { StillLent device.old device.new }
{
    let o = device.handle(packet);
    let number = q.number + 1;
    let size = print_line(
        out,
        q.size,
        number,
        o.status() as u64,
        device.replied(o.size),
    );
    Progress { size, number, ..q }
}

// A line at a place of the output; answers where it ends.
fn print_line(out: &mut [u8], at: usize, number: u64, status: u64, reply: &[u8]) -> usize
    requires { (at + line_room ≤ length out.old) × (length reply.now ≤ reply_room) }
    ensures put { Puts at (line number status reply.now) out.old out.new result }
    ensures most { result ≤ at + line_room }
    ensures reads { Decimal number (decimal number) × Decimal status (decimal status)
        × Hex reply.now (hex reply.now) }
{
    let mut page = Page { out, size: at };
    put_line(&mut page, number, status, reply);
    page.size
}

// Number, status, and the reply.
fn put_line(page: &mut Page, number: u64, status: u64, reply: &[u8])
    requires { (page.old.size + line_room ≤ length page.old.out.now)
        × (length reply.now ≤ reply_room) }
    ensures put { PutOn (line number status reply.now) page.old page.new }
    ensures most { page.new.size ≤ page.old.size + line_room }
    ensures reads { Decimal number (decimal number) × Decimal status (decimal status)
        × Hex reply.now (hex reply.now) }
{
    page.put_number(number);
    page.put_text(b" ");
    page.put_number(status);
    page.put_hex(reply);
    page.put_text(b"\n");
}

// The lines behind the last record, over the start of the output: nothing where there is no room,
// or no number left for a record that is cut.
pub fn finish(p: Progress, out: &mut [u8]) -> usize
    ensures { Puts 0 (closing_text p out.old) out.old out.new result × (result ≤ length out.new) }
{
    let mut page = Page { out, size: 0 };
    put_closing(&mut page, p);
    page.size
}

fn put_closing(page: &mut Page, p: Progress)
    requires { page.old.size ≡ 0 }
    ensures put { PutOn (closing_text p page.old.out.now) page.old page.new }
    ensures inside { page.new.size ≤ length page.new.out.now }
{
    if page.out.len() < CLOSING_ROOM {
        return;
    }
    if MOST_RECORDS <= p.number {
        return;
    }
    if !p.matched.is_whole() {
        page.put_text(b"not a session\n");
        return;
    }
    put_cut(page, p.number, p.have);
    put_end(page, p.number);
}

// The record that is cut, if one is.
fn put_cut(page: &mut Page, number: u64, have: usize)
    requires { (page.old.size + cut_room ≤ length page.old.out.now) × (number < most_records) }
    ensures put { PutOn (cut_text number have) page.old page.new }
    ensures most { page.new.size ≤ page.old.size + cut_room }
{
    if have == 0 {
        return;
    }
    page.put_number(number + 1);
    page.put_text(b" cut\n");
}

// The count of whole records.
fn put_end(page: &mut Page, number: u64)
    requires { page.old.size + cut_room ≤ length page.old.out.now }
    ensures put { PutOn (end_line number) page.old page.new }
    ensures most { page.new.size ≤ page.old.size + cut_room }
{
    page.put_text(b"end ");
    page.put_number(number);
    page.put_text(b"\n");
}

// Rule 9.7: the line for an input that can't be read, over the start of the output: nothing where
// there is no room.
pub fn unreadable(out: &mut [u8]) -> usize
    ensures { Puts 0 (unreadable_text out.old) out.old out.new result × (result ≤ length out.new) }
{
    if out.len() < CLOSING_ROOM {
        return 0;
    }
    let mut page = Page { out, size: 0 };
    page.put_text(b"unreadable\n");
    page.size
}

// Nothing to run: its contract is what holds of whole files.
pub fn theorems()
    ensures { WholeFiles }
{}
