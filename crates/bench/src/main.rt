// Reads each bench packet of rule 8.1, says what it found, and makes the packet again from its
// reading; then plans the uploads of the bench maps, and compresses and splits gains.
#![tactic(auto)]

ghost use Rattle.std.specs.Prelude.{◌+◌, ◌<◌, ◌≤◌, length};

use batch::Sent;
use packet::Command;
use show::Hex;
use wire::Refusal;

// Numbers of points that no map has, and each lent list once too short, the exact ones too long as
// well; at last all is right, and then room, choices and batch are longer. A row has the number of
// points and the lengths of held, wanted, plan, room, choices and batch.
const LENGTHS: [[usize; 7]; 14] = [
    [0, 8, 8, 3968, 127, 1984, 8032],
    [1985, 8, 8, 3968, 127, 1984, 8032],
    [3, 8, 8, 3968, 127, 1984, 8032],
    [4, 7, 8, 3968, 127, 1984, 8032],
    [4, 9, 8, 3968, 127, 1984, 8032],
    [4, 8, 7, 3968, 127, 1984, 8032],
    [4, 8, 9, 3968, 127, 1984, 8032],
    [4, 8, 8, 3967, 127, 1984, 8032],
    [4, 8, 8, 3969, 127, 1984, 8032],
    [4, 8, 8, 3968, 126, 1984, 8032],
    [4, 8, 8, 3968, 127, 1983, 8032],
    [4, 8, 8, 3968, 127, 1984, 8031],
    [4, 8, 8, 3968, 127, 1984, 8032],
    [4, 8, 8, 3968, 128, 1985, 8033],
];

// What a batch has that was refused. Numbers stand beside values here and below to be printed.
const NOTHING: Sent = Sent {
    packets: 0,
    bytes: 0,
};

fn main(rt: HostRuntime) {
    run(&rt);
}

// A write that fails is passed over, here and below: what follows is still written.
fn run(rt: &impl Print) {
    present_packets(rt);
    // Points 0 and 2 differ; points 0 and 3 differ.
    present_plan(rt, &[0, 0, 0, 0, 0, 0, 0, 0], &[1, 2, 0, 0, 3, 4, 0, 0]);
    present_plan(rt, &[0, 0, 0, 0, 0, 0, 0, 0], &[1, 2, 0, 0, 0, 0, 3, 4]);
    present_gains(rt, &[5, 5, 5, 7, 8191, 8191, 0], 2009);
    present_gains(rt, &[5, 5, 5, 7, 8191, 8191, 0], 2010);
    present_gains(rt, &[8192], 0);
    let _ = println!(rt; "lengths and points that planning refuses, and two that it takes");
    present_refusals(rt);
}

fn present_packets(rt: &impl Print) {
    // Frames, commands and points; the last but one is refused with 12 behind reading, which takes
    // it.
    present_all(
        rt,
        &[
            b"",
            b"\x24\x11",
            b"\x04\x11\x01",
            b"\x84\x11",
            b"\x44\x11\x01",
            b"\x0c\x11\x00\x01",
            b"\x24\x11\x01\x8f",
            b"\x24\x11\x01\x36",
            b"\x60",
            b"\x04\x10\x00",
            b"\x03\x11\x01",
            b"\x14\x11\x02\x00\x01",
            b"\x04\x11\x05",
            b"\x04\x1a\x01",
            b"\x04\x1a\x02",
            b"\x04\x39\x01",
            b"\x04\x39\x02",
            b"\x04\x34\x00\x00\x08\x00\x10\x00",
            b"\x14\x34\x02\x00\x00\x00",
            b"\x14\x34\x06\x00\xbf\x07\x01\x00\x02\x00",
            b"\x14\x34\x06\x00\xc0\x07\x01\x00\x02\x00",
            b"\x14\x2b\x08\x00\x00\x01\x01\x00\xdf\x07\x00\x14",
        ],
    );
    // Compressed gains. The last two are the guide's example with its length field: its first two
    // pairs, the second of them 0 of 63; then all of it.
    present_all(
        rt,
        &[
            b"\x14\x2b\x0a\x00\x01\x01\x02\x00\xde\x07\x02\x00\x00\x14",
            b"\x14\x2b\x0a\x00\x01\x01\x02\x00\xdf\x07\x02\x00\x00\x14",
            b"\x14\x2b\x0a\x00\x01\x01\x02\x00\xde\x07\x00\x00\x00\x14",
            b"\x14\x2b\x08\x00\x01\x01\x01\x00\x00\x00\x02\x00",
            b"\x14\x2b\x08\x00\x02\x01\x01\x00\x00\x00\x02\x00",
            b"\x14\x2b\x06\x00\x01\x01\x00\x00\x00\x00",
            b"\x14\x2b\x0a\x00\x01\x01\x02\x00\x00\x00\x01\x00\x00\x20",
            b"\x14\x2b\x0a\x00\x01\x01\x02\x00\x00\x00\xe1\x07\x00\x14",
            b"\x14\x2b\x0a\x00\x01\x04\x02\x00\x00\x00\x01\x00\x00\x14",
            b"\x14\x2b\x0e\x00\x01\x02\x04\x00\x03\x00\x02\x00\x00\x14\x01\x00\xff\x1f",
            b"\x54\x2b\x0e\x00\x01\x00\x04\x00\x00\x00\x3f\x00\x00\x10\x00\x00\x3f\x00",
            b"\x54\x2b\x86\x00\x01\x00\x40\x00\x00\x00\x3f\x00\x00\x10\x00\x00\x3f\x00\x00\x00\x3f\x00\x00\x00\x3f\x00\x00\x00\x3f\x00\x00\x00\x3f\x00\x00\x00\x3f\x00\x00\x00\x3f\x00\x00\x00\x3f\x00\x00\x00\x3f\x00\x00\x00\x3f\x00\x00\x00\x3f\x00\x00\x00\x3f\x00\x00\x00\x3f\x00\x00\x00\x3f\x00\x00\x00\x3f\x00\x3f\x00\x7f\x0f\x3f\x00\x75\x0e\x3f\x00\x6c\x0d\x3f\x00\x6a\x0c\x3f\x00\x60\x0b\x3f\x00\x57\x0a\x3f\x00\x4d\x09\x3f\x00\x44\x08\x3f\x00\x42\x07\x3f\x00\x38\x06\x3f\x00\x2f\x05\x3f\x00\x25\x04\x3f\x00\x1c\x03\x3f\x00\x1a\x02\x3f\x00\x11\x01\x3f\x00\x07\x00",
        ],
    );
    // Two faults, of which the first is named: a UART of baud 12 and parity 3. A read of pin 88.
    present_all(
        rt,
        &[
            b"\x64\x6d\x00\x01\x0c\x03\x00\x03\x00\x00\x00\x00\x00\xd0",
            b"\x84\x60\x58",
        ],
    );
}

fn present_all(rt: &impl Print, packets: &[&[u8]]) {
    for packet in packets {
        present(rt, packet);
    }
}

// The plan for a map of four points: its packets, its bytes and the batch.
fn present_plan(rt: &impl Print, held: &[u16], wanted: &[u16]) {
    let mut plan = [0u16; planning::PLAN_SIZE];
    let mut room = [0u32; planning::ROOM_SIZE];
    let mut choices = [0u8; planning::CHOICES_SIZE];
    let mut batch = [0u8; planning::BATCH_SIZE];
    let planned = planner_numbers::plan(
        4,
        held,
        wanted,
        &mut plan,
        &mut room,
        &mut choices,
        &mut batch,
    );
    let _ = print!(rt; "plan: ");
    let sent = print_planned(rt, planned);
    let _ = println!(rt;);
    show_packets(rt, &batch, sent.bytes);
    show_rooms(rt, &room, &choices);
}

// Gains of blue from a start on, as 16-bit numbers: how many pairs they are, and the packets of
// these.
fn present_gains(rt: &impl Print, gains: &[u16], start: u32) {
    let mut pairs = [0u16; compressor::PAIRS_ROOM];
    let (status, n) = match compressor::numbers::compress(gains, &mut pairs) {
        Ok(n) => (0, n),
        Err(why) => (why.number(), 0),
    };
    let _ = print!(rt; "gains: status {status}, pairs {n}");
    present_split(rt, start, &pairs[..2 * n]);
}

fn present_split(rt: &impl Print, start: u32, pairs: &[u16]) {
    let mut batch = [0u8; splitter::BATCH_ROOM];
    let (status, sent) = match splitter::numbers::split(3, start, pairs, &mut batch) {
        Ok(sent) => (0, sent),
        Err(why) => (why.number(), NOTHING),
    };
    let _ = print!(rt; "; split: ");
    print_sent(rt, status, sent);
    let _ = println!(rt;);
    show_packets(rt, &batch, sent.bytes);
}

// The room's numbers and the choices of four points and of one behind them.
fn show_rooms(rt: &impl Print, room: &[u32], choices: &[u8])
    requires { (4 < length room.now) × (4 < length choices.now) }
{
    for k in 0..5 {
        let _ = println!(rt;
            "  bytes from point {k} on {}, choice {}",
            room[k], choices[k]
        );
    }
}

// The packets in the first n bytes of a batch, a line each: where one ends its own header and
// length field say.
fn show_packets(rt: &impl Print, batch: &[u8], n: usize) {
    let mut at = 0;
    // No `for`: a step is a packet.
    while at < n.min(batch.len()) {
        let rest = &batch[at..];
        let size = packet::announced(rest);
        let _ = println!(rt; " {}", Hex(&rest[..size.min(rest.len())]));
        at += size;
    }
}

// A plan for each row of lengths, on parts that are no longer than the lists, held and wanted being
// parts of one map.
fn present_refusals(rt: &impl Print) {
    let map = [0u16; 9];
    let mut plan = [7u16; planning::PLAN_SIZE + 1];
    let mut room = [7u32; planning::ROOM_SIZE + 1];
    let mut choices = [7u8; planning::CHOICES_SIZE + 1];
    let mut batch = [7u8; planning::BATCH_SIZE + 1];
    for row in &LENGTHS {
        let [points, held, wanted, p, r, c, b] = *row;
        try_plan(
            rt,
            points as u32,
            &map[..held.min(map.len())],
            &map[..wanted.min(map.len())],
            &mut plan[..p.min(planning::PLAN_SIZE + 1)],
            &mut room[..r.min(planning::ROOM_SIZE + 1)],
            &mut choices[..c.min(planning::CHOICES_SIZE + 1)],
            &mut batch[..b.min(planning::BATCH_SIZE + 1)],
        );
    }
}

// One plan; and what stands first in each list then.
fn try_plan(
    rt: &impl Print,
    points: u32,
    held: &[u16],
    wanted: &[u16],
    plan: &mut [u16],
    room: &mut [u32],
    choices: &mut [u8],
    batch: &mut [u8],
) {
    let planned = planner_numbers::plan(points, held, wanted, plan, room, choices, batch);
    let _ = print!(rt; "  ");
    print_planned(rt, planned);
    let _ = println!(rt;
        "; left {} {} {} {}",
        first(plan),
        first(room),
        first(choices),
        first(batch)
    );
}

// What planning answers; and the batch that it made.
fn print_planned(rt: &impl Print, planned: Result<Sent, planning::Refusal>) -> Sent {
    let (status, sent) = match planned {
        Ok(sent) => (0, sent),
        Err(why) => (why.number(), NOTHING),
    };
    print_sent(rt, status, sent);
    sent
}

fn print_sent(rt: &impl Print, status: u8, sent: Sent) {
    let _ = print!(rt;
        "status {status}, packets {}, bytes {}",
        sent.packets, sent.bytes
    );
}

// What stands first in a list, 0 where there is nothing.
fn first<T: Copy + Default>(list: &[T]) -> T {
    match list.first() {
        Some(x) => *x,
        None => T::default(),
    }
}

// One packet: its bytes, what reading gives, and the bytes made again.
fn present(rt: &impl Print, bytes: &[u8]) {
    let _ = println!(rt; "packet{}", Hex(bytes));
    match packet::read(bytes) {
        Ok(command) => present_command(rt, command, bytes),
        Err(why) => print_refusal(rt, why),
    }
}

fn present_command(rt: &impl Print, command: Command, bytes: &[u8])
    requires { command.at + command.size ≤ length bytes.now }
{
    let Command {
        opcode,
        options,
        at,
        size,
    } = command;
    let _ = println!(rt;
        "  opcode {opcode:02x}h, options {options:02x}h, data at {at}, size {size}"
    );
    make_again(rt, opcode, options, command.data(bytes));
}

fn make_again(rt: &impl Print, opcode: u8, options: u8, data: &[u8]) {
    let mut buffer = [0u8; 512];
    let (status, size) = match packet::make(opcode as u16, options, data, &mut buffer) {
        Ok(size) => (0, size),
        Err(why) => (why.number(), 0),
    };
    let _ = println!(rt;
        "  made again, status {status}:{}",
        Hex(&buffer[..size.min(512)])
    );
}

fn print_refusal(rt: &impl Print, why: Refusal) {
    let _ = print!(rt; "  refused {}", why.number());
    if let Refusal::ValueWrong(place) = why {
        let _ = print!(rt; ", at data byte {place}");
    }
    let _ = println!(rt;);
}
