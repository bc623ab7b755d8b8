// Replays the session file on standard input: a line a record, as rules 9.2 to 9.7 have them.
// Reads, replays and writes; the text is playback's.
#![tactic(auto)]

ghost use Rattle.std.specs.Prelude.{◌+◌, ◌≤◌, ◌<◌, ◌≡◌, length};
ghost use Rattle.io.specs.Counts.{IsPrefixLen};
ghost use Rattle.front_end.specs.State.{reset_state};
ghost use Rattle.playback.specs.Device.{state_of, StillLent};
ghost use Rattle.replay.specs.Played.{PlayedSome, Played, way_of, TakenIn, WindowTaken};
ghost use Rattle.replay.specs.Played.{LastLines, Closed};
ghost use Rattle.replay.specs.Plain.{count_of, RunPlain};

use front_end::{GAINS_SIZE, MAP_SIZE, REPLY_ROOM};
use playback::{Device, Progress};
use session_file::{KEPT_SIZE, Preamble};
use settings::layout::BLOCK_SIZE;
use std::io::{Read, Stdin};

// The descriptor of standard output.
const STDOUT: i32 = 1;

// As much as a pipe holds.
const WINDOW_SIZE: usize = 65536;

// A loop that is proved has to end, and nothing says that input does: no run makes so many reads.
const MOST_READS: u64 = u64::MAX;

// How it goes on behind a window.
#[derive(Clone, Copy)]
enum Way {
    More,
    Ended,
    Unreadable,
    Unwritable,
}

fn main(rt: HostRuntime) {
    let mut block = [0u8; BLOCK_SIZE];
    let mut staged = [0u16; MAP_SIZE];
    let mut live = [0u16; MAP_SIZE];
    let mut gains = [0u16; GAINS_SIZE];
    let mut reply = [0u8; REPLY_ROOM];
    let mut kept = [0u8; KEPT_SIZE];
    let mut window = [0u8; WINDOW_SIZE];
    let mut out = [0u8; WINDOW_SIZE];
    let mut input = rt.stdin();
    let mut device = Device {
        block: &mut block,
        staged: &mut staged,
        live: &mut live,
        gains: &mut gains,
        reply: &mut reply,
    };
    // Every list is as long as it is to be.
    let _ = device.reset();
    run(&mut input, &mut window, &mut kept, &mut device, &mut out);
}

// What goes from window to window: where the replay stands, and how it goes on.
#[derive(Clone, Copy)]
struct BetweenReads {
    progress: Progress,
    how: Way,
}

// Window after window, until there is no more to read or to write. Answers how it stands at the
// end.
fn run(
    input: &mut Stdin,
    window: &mut [u8],
    kept: &mut [u8],
    device: &mut Device,
    out: &mut [u8],
) -> BetweenReads
    requires { (state_of device.old ≡ reset_state) × (0 < length window.old) }
    ensures { RunPlain result.how (state_of device.new) out.new }
{
    let mut s = BetweenReads {
        progress: Progress {
            at: 0,
            size: 0,
            matched: Preamble::Matched(0),
            number: 0,
            have: 0,
        },
        how: Way::More,
    };
    for _ in 0..MOST_READS {
        s = one_window(s.progress, input, window, kept, device, out);
        let Way::More = s.how else {
            break;
        };
    }
    close(s, out);
    s
}

// Reads a window, and replays it.
fn one_window(
    from: Progress,
    input: &mut Stdin,
    window: &mut [u8],
    kept: &mut [u8],
    device: &mut Device,
    out: &mut [u8],
) -> BetweenReads
    ensures taken { WindowTaken from kept.old (state_of device.old)
        window.new result kept.new (state_of device.new) }
    ensures same { StillLent device.old device.new }
{
    let got = input.read(window);
    take_in(from, got, window, kept, device, out)
}

// Replays what a read gave: it failed, or put so many bytes at the start of the window.
fn take_in(
    from: Progress,
    got: std::io::Result<usize>,
    window: &[u8],
    kept: &mut [u8],
    device: &mut Device,
    out: &mut [u8],
) -> BetweenReads
    ensures taken { TakenIn from got window.now kept.old (state_of device.old)
        result kept.new (state_of device.new) }
    ensures same { StillLent device.old device.new }
{
    let n = count(got, window);
    let progress = play(&window[..n], from, kept, device, out);
    BetweenReads {
        progress,
        how: next_way(got.is_err(), n, progress),
    }
}

// How many bytes a read gave, of those that the window has: none where it failed.
fn count(got: std::io::Result<usize>, window: &[u8]) -> usize
    ensures in_bounds { IsPrefixLen result window.now }
    ensures value { result ≡ count_of got (length window.now) }
{
    match got {
        Ok(n) => n.min(window.len()),
        Err(_) => 0,
    }
}

// How it goes on after a read that failed, or gave n bytes of which those up to p.at were replayed
// and their lines written. A file that is no session need not be read to its end.
#[tactic(auto, unfolding(crate::specs::Played::way_of))]
fn next_way(failed: bool, n: usize, p: Progress) -> Way
    ensures { result ≡ way_of failed n p }
{
    if p.at != n {
        return Way::Unwritable;
    }
    if failed {
        return Way::Unreadable;
    }
    if n == 0 {
        return Way::Ended;
    }
    match p.matched {
        Preamble::Matched(_) => Way::More,
        Preamble::Spoiled => Way::Ended,
    }
}

// Writes the last lines.
fn close(s: BetweenReads, out: &mut [u8])
    ensures { Closed s out.old out.new }
{
    let size = last_lines(s, out);
    io::write_all(STDOUT, &out[..size]);
}

// The last lines, over the start of the output: none behind a write that failed.
fn last_lines(s: BetweenReads, out: &mut [u8]) -> usize
    ensures { LastLines s out.old out.new result × (result ≤ length out.new) }
{
    match s.how {
        Way::Unwritable => 0,
        Way::Ended => playback::finish(s.progress, out),
        Way::More | Way::Unreadable => playback::unreadable(out),
    }
}

// One window: its lines, written as often as they fill the output. Less than all of it is taken
// where a write failed, or no record can be counted any more.
fn play(
    window: &[u8],
    from: Progress,
    kept: &mut [u8],
    device: &mut Device,
    out: &mut [u8],
) -> Progress
    ensures played { Played window.now from kept.old (state_of device.old)
        result kept.new (state_of device.new) }
    ensures same { StillLent device.old device.new }
{
    let mut p = from;
    let mut at = 0;
    // No `for`: a step is as many bytes as were replayed.
    while at < window.len() {
        p = play_some(&window[at..], p, kept, device, out);
        if p.at == 0 {
            break;
        }
        at += p.at;
    }
    Progress { at, size: 0, ..p }
}

// As much of the window as fills the output, and its lines written. Nothing counts as taken where
// the write failed.
fn play_some(
    window: &[u8],
    from: Progress,
    kept: &mut [u8],
    device: &mut Device,
    out: &mut [u8],
) -> Progress
    ensures played { PlayedSome window.now from kept.old (state_of device.old)
        result kept.new (state_of device.new) }
    ensures same { StillLent device.old device.new }
{
    let p = playback::replay(window, from, kept, device, out);
    if io::write_all(STDOUT, &out[..p.size]) {
        p
    } else {
        Progress { at: 0, ..p }
    }
}
