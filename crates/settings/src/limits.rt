// The ends of the ranges of stored settings: those of the commands that store them, bytes as bytes.
pub const MOST_FLAG: u8 = 1;

pub const MOST_DISPLAY: u8 = opcode::limits::MOST_DISPLAY as u8;

pub const MOST_COLOUR: u8 = opcode::limits::MOST_COLOUR as u8;

pub const MOST_FLIP: u8 = opcode::limits::MOST_FLIP as u8;

pub const MOST_DUTY: u8 = opcode::limits::MOST_DUTY as u8;

pub const MOST_BAUD: u8 = opcode::limits::MOST_BAUD as u8;

pub const MOST_BITS: u8 = opcode::limits::MOST_BITS as u8;

pub const MOST_PARITY: u8 = opcode::limits::MOST_PARITY as u8;

pub const MOST_TRIGGER: u8 = opcode::limits::MOST_TRIGGER as u8;

// Rule 5.1, 39h: 0 alone is stored.
pub const MOST_UPDATE: u8 = 0;

pub use opcode::limits::{
    LEAST_FREQUENCY, LEAST_SHAPE, LEAST_SMOOTH, MOST_COLUMNS, MOST_FREQUENCY, MOST_ROWS,
    MOST_SMOOTH,
};

// Rule 5.10: the smooth table's counts and the low byte of a PWM frequency after reset.
pub const RESET_SMOOTH: u8 = LEAST_SMOOTH as u8;

pub const RESET_FREQUENCY: u8 = LEAST_FREQUENCY as u8;
