// The ends of ranges (rules 5.1, 5.5 and 5.7), which stored settings share with the fields of packets. A range from 0
// has its end alone.
pub const MOST_DISPLAY: usize = 4;

pub const MOST_COLOUR: usize = 8;

pub const MOST_FLIP: usize = 3;

pub const LEAST_SHAPE: usize = 2;

pub const MOST_COLUMNS: usize = 62;

pub const MOST_ROWS: usize = 32;

pub const LEAST_SMOOTH: usize = 3;

pub const MOST_SMOOTH: usize = 5;

pub const MOST_PIN: usize = 87;

pub const LEAST_FREQUENCY: usize = 20;

pub const MOST_FREQUENCY: usize = 10_390_000;

pub const MOST_DUTY: usize = 100;

pub const MOST_BAUD: usize = 11;

pub const MOST_BITS: usize = 3;

pub const MOST_PARITY: usize = 2;

pub const MOST_TRIGGER: usize = 4;
