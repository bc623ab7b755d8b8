// What no session file can say: gains that no packet can have stored, lists that are lent a number
// short, a setting out of range. On the front end's entries on 16-bit tables; each step prints what
// it answered.
#![tactic(auto)]

ghost use Rattle.std.specs.Prelude.{◌≤◌, length};

use front_end::{GAINS_SIZE, MAP_SIZE, Outcome, REPLY_ROOM};
use settings::layout::BLOCK_SIZE;
use show::Hex;

// Three groups of packets. The first reads what is lent, and stores a setting, four staged points
// and, applied, live ones. Those of the second are lent one of the lists a number short. The last
// are a write, one that asks for a reply, a read, and an empty packet.
fn main(rt: HostRuntime) {
    let mut block = [0u8; BLOCK_SIZE];
    let mut staged = [0u16; MAP_SIZE];
    let mut live = [0u16; MAP_SIZE];
    let mut gains = [0u16; GAINS_SIZE];
    let mut reply = [0u8; REPLY_ROOM];
    let mut lists = Lists {
        block: &mut block,
        staged: &mut staged,
        live: &mut live,
        gains: &mut gains,
        reply: &mut reply,
    };
    lists.reset();
    lists.lend_large();
    // A write that fails is passed over, here and below: what follows is still written.
    run(
        &rt,
        &[
            b"\x84\x2b\x01\x04\x00\x03\x00",
            b"\x04\x11\x01",
            b"\x14\x34\x12\x00\x00\x00\x00\x00\x01\x00\x02\x00\x03\x00\x04\x00\x05\x00\x06\x00\x07\x00",
            b"\x04\x36\x01",
            b"\x44\x11\x01",
            b"\x44\x11\x01",
            b"\x44\x11\x01",
            b"\x44\x11\x01",
            b"\x44\x11\x01",
            b"\x04\x11\x01",
            b"\x44\x11\x01",
            b"\x84\x11",
            b"",
        ],
        &mut lists,
    );
}

// The first step that is lent a list a number short, and the first behind those.
const FIRST_SHORT: usize = 4;

const FIRST_SPOILT: usize = 9;

// What the entries are lent.
#[derive(Drop)]
struct Lists<'a> {
    block: &'a mut [u8],
    staged: &'a mut [u16],
    live: &'a mut [u16],
    gains: &'a mut [u16],
    reply: &'a mut [u8],
}

impl Lists<'_> {
    // The number of what refuses it, 0 where nothing does.
    fn reset(&mut self) -> u8 {
        match front_end_numbers::reset(self.block, self.staged, self.live, self.gains) {
            Ok(()) => 0,
            Err(why) => why.number(),
        }
    }

    fn handle(&mut self, packet: &[u8]) -> Outcome {
        front_end_numbers::handle(
            packet,
            self.block,
            self.staged,
            self.live,
            self.gains,
            self.reply,
        )
    }

    // Numbers that no packet can have stored in the gains: lent tables are taken as they lie.
    fn lend_large(&mut self) {
        if 6 < self.gains.len() {
            self.gains[5] = 9000;
            self.gains[6] = 65535;
        }
    }

    // Display 5, which no packet can have stored: refusal 1, with no reply.
    fn spoil(&mut self) {
        if 0 < self.block.len() {
            self.block[0] = 5;
        }
    }
}

fn run(rt: &impl Print, packets: &[&[u8]], lists: &mut Lists) {
    for (i, packet) in packets.iter().enumerate() {
        head(rt, i);
        step(rt, i, packet, lists);
        tell(rt, i, lists);
    }
}

fn head(rt: &impl Print, i: usize) {
    let _ = match i {
        0 => println!(rt; "gains lent above 8191"),
        FIRST_SHORT => println!(rt; "lists that are a number short"),
        FIRST_SPOILT => println!(rt; "a setting out of range"),
        _ => Ok(()),
    };
}

// A packet on the lists, or with one of them lent a number short. The reply buffer is the last of
// them, as it alone does not stop a reset.
fn step(rt: &impl Print, i: usize, packet: &[u8], lists: &mut Lists) {
    let b = lent(lists.block, i == FIRST_SHORT);
    let s = lent(lists.staged, i == FIRST_SHORT + 1);
    let l = lent(lists.live, i == FIRST_SHORT + 2);
    let g = lent(lists.gains, i == FIRST_SHORT + 3);
    let r = lent(lists.reply, i == FIRST_SHORT + 4);
    on_parts(
        rt,
        i,
        packet,
        &mut lists.block[..b],
        &mut lists.staged[..s],
        &mut lists.live[..l],
        &mut lists.gains[..g],
        &mut lists.reply[..r],
    )
}

// The struct is made here, of parameters: where it is made of parts of another, the borrow checker
// does not cover the call that it is lent to.
fn on_parts(
    rt: &impl Print,
    i: usize,
    packet: &[u8],
    block: &mut [u8],
    staged: &mut [u16],
    live: &mut [u16],
    gains: &mut [u16],
    reply: &mut [u8],
) {
    let mut lists = Lists {
        block,
        staged,
        live,
        gains,
        reply,
    };
    prepare(rt, i, &mut lists);
    send(rt, packet, &mut lists);
}

fn is_short(i: usize) -> bool {
    FIRST_SHORT <= i && i < FIRST_SPOILT
}

// How long a list is as it is lent: all of it, or a number short.
fn lent<T>(list: &[T], short: bool) -> usize
    ensures { result ≤ length list.now }
{
    if short {
        list.len().saturating_sub(1)
    } else {
        list.len()
    }
}

// A reset, where a list is a number short; behind those steps a setting out of range.
fn prepare(rt: &impl Print, i: usize, lists: &mut Lists) {
    if FIRST_SPOILT <= i {
        lists.spoil();
    }
    if is_short(i) {
        let _ = println!(rt; "  reset -> {}", lists.reset());
    }
}

// One packet: its bytes, the status, and the reply if there is one.
fn send(rt: &impl Print, packet: &[u8], lists: &mut Lists) {
    let o = lists.handle(packet);
    let _ = print!(rt; " {} -> {}", Hex(packet), o.status());
    if 0 < o.size {
        print_reply(rt, lists.reply, o.size);
    }
    let _ = println!(rt;);
}

fn print_reply(rt: &impl Print, reply: &[u8], size: usize) {
    let _ = print!(rt; ":{}", Hex(&reply[..size.min(reply.len())]));
}

fn tell(rt: &impl Print, i: usize, lists: &Lists) {
    if is_short(i) {
        let _ = println!(rt;
            "  left {} {} {} {}",
            at(lists.block, 0),
            at(lists.staged, 6),
            at(lists.live, 6),
            at(lists.gains, 6)
        );
    }
}

// What stands at a place of a list, 0 past its end.
fn at<T: Copy + Default>(list: &[T], i: usize) -> T {
    match list.get(i) {
        Some(x) => *x,
        None => T::default(),
    }
}
