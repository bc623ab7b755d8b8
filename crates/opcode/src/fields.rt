// The fields of each command's data, in packet order, and the first of them at fault.
ghost use Rattle.std.specs.Prelude.{◌≡◌, ◌<◌, ◌≤◌};
ghost use Rattle.opcode.specs.Fields.{takes, span, «fault»};
ghost use Rattle.opcode.specs.Fields.{«number» as number_at};
ghost use Rattle.opcode.specs.Commands.{command_of};
ghost use Rattle.opcode.specs.Internal.{most_span};

use super::{Field, limits};

// A field of so many bytes that takes the numbers from low to high; but for those from gap up to,
// and not with, past.
macro_rules! field {
    ($size:expr, $low:expr, $high:expr) => {
        field!($size, $low, $high, 0, 0)
    };
    ($size:expr, $low:expr, $high:expr, $gap:expr, $past:expr) => {
        Field {
            size: $size,
            low: $low,
            high: $high,
            gap: $gap,
            past: $past,
        }
    };
}

const FLAG: Field = field!(1, 0, 1);

const ANY_WORD: Field = field!(2, 0, 65535);

const TRIGGER: Field = field!(1, 0, limits::MOST_TRIGGER);

const SMOOTH_COUNT: Field = field!(1, limits::LEAST_SMOOTH, limits::MOST_SMOOTH);

static FLAGS: [Field; 1] = [FLAG];

static DISPLAY: [Field; 1] = [field!(1, 0, limits::MOST_DISPLAY)];

static WORDS: [Field; 1] = [ANY_WORD];

static COLOUR: [Field; 1] = [field!(1, 0, limits::MOST_COLOUR, 1, 2)];

static SPLASH: [Field; 1] = [field!(1, 0, 255)];

static FLIP: [Field; 1] = [field!(1, 0, limits::MOST_FLIP)];

// 2Bh: compression, colour, count, start.
static GAINS: [Field; 4] = [FLAG, field!(1, 0, 3), field!(2, 1, 65535), ANY_WORD];

// 2Bh, a read: colour, start, count.
static GAINS_ASKED: [Field; 3] = [field!(1, 1, 3), ANY_WORD, field!(2, 1, 254)];

// 34h, a read: start, count.
static POINTS_ASKED: [Field; 2] = [ANY_WORD, field!(2, 1, 127)];

// 35h: mode, columns, rows.
static CONTROL: [Field; 3] = [
    FLAG,
    field!(2, limits::LEAST_SHAPE, limits::MOST_COLUMNS),
    field!(2, limits::LEAST_SHAPE, limits::MOST_ROWS),
];

// 38h: columns, rows.
static SMOOTH: [Field; 2] = [SMOOTH_COUNT, SMOOTH_COUNT];

// 60h: pin, direction, level, drain. 61h has pin and level, its first two.
static PIN: [Field; 4] = [field!(1, 0, limits::MOST_PIN), FLAG, FLAG, FLAG];

// 65h: port, frequency, duty, on.
static PWM: [Field; 4] = [
    field!(1, 0, 13, 11, 13),
    field!(4, limits::LEAST_FREQUENCY, limits::MOST_FREQUENCY),
    field!(1, 0, limits::MOST_DUTY),
    FLAG,
];

// 6Dh: port, on, baud, bits, stop, parity, flow, two triggers, polarity, source.
static UART: [Field; 11] = [
    field!(1, 0, 2),
    FLAG,
    field!(1, 0, limits::MOST_BAUD),
    field!(1, 0, limits::MOST_BITS),
    FLAG,
    field!(1, 0, limits::MOST_PARITY),
    FLAG,
    TRIGGER,
    TRIGGER,
    FLAG,
    FLAG,
];

// The fields of a write's data; if its size varies, of its fixed head.
#[tactic(auto, unfolding(crate::specs::Commands::command_of))]
pub(crate) fn sets(opcode: usize) -> &'static [Field]
    ensures { (result.now ≡ (command_of opcode).sets) × (span result.now ≤ most_span) }
{
    // By number, as the rules and guides have it: variants would only name the numbers once more.
    match opcode {
        0x11 => &DISPLAY,
        0x12 | 0x1D | 0x36 | 0x39 | 0x6C => &FLAGS,
        0x13 | 0x34 => &WORDS,
        0x1A => &COLOUR,
        0x1B => &SPLASH,
        0x1C => &FLIP,
        0x2B => &GAINS,
        0x35 => &CONTROL,
        0x38 => &SMOOTH,
        0x60 => &PIN,
        0x61 => &PIN[..2],
        0x65 => &PWM,
        0x6D => &UART,
        _ => &[],
    }
}

// The fields of a read's data: but for two commands nothing, or the pin or port that a write
// starts with.
#[tactic(auto, unfolding(crate::specs::Commands::command_of))]
pub(crate) fn asks(opcode: usize) -> &'static [Field]
    ensures { (result.now ≡ (command_of opcode).asks) × (span result.now ≤ most_span) }
{
    // By number, as the rules and guides have it: variants would only name the numbers once more.
    match opcode {
        0x2B => &GAINS_ASKED,
        0x34 => &POINTS_ASKED,
        0x60 | 0x61 => &PIN[..1],
        0x65 => &PWM[..1],
        0x6D => &UART[..1],
        _ => &[],
    }
}

// The number of one, two or four bytes at a place.
fn number(data: &[u8], at: usize, size: usize) -> usize
    ensures { (result ≡ number_at size «data».now at) × (result < 4294967296) }
{
    match size {
        1 => wire::byte(data, at),
        2 => wire::word(data, at),
        _ => wire::long(data, at),
    }
}

impl Field {
    // Whether the field takes a number.
    fn takes(self, v: usize) -> bool
        ensures { result ≡ «takes» self v }
    {
        (self.low <= v) & (v <= self.high) & !((self.gap <= v) & (v < self.past))
    }
}

// The place of the first field that does not take its number, the fields standing one behind the
// other; the place behind the last field if each takes its own. Apart from `judge`, since with it
// inside the lists of 35h take a seventh more instructions.
#[inline(never)]
pub(crate) fn fault(fields: &[Field], data: &[u8]) -> usize
    requires { span fields.now ≤ most_span }
    ensures { result ≡ «fault» fields.now «data».now 0 }
{
    let mut at = 0;
    for field in fields {
        if !field.takes(number(data, at, field.size)) {
            return at;
        }
        at += field.size;
    }
    at
}
