// The commands carried: the table of all one-byte opcodes, the fields of their data, and the
// judgement of a command (refusals 7 to 11).
#![tactic(auto)]

mod fields;
mod header;
mod judgement;
pub mod limits;
mod lists;
mod opcodes;

pub use header::Header;
pub use judgement::{in_pairs, judge, words};
pub use lists::{next_above, rise};
pub use opcodes::row_at;

// A field of a command's data: its bytes, and the numbers it takes, from low to high but for those
// from gap up to past.
#[derive(Clone, Copy)]
pub struct Field {
    pub size: usize,
    pub low: usize,
    pub high: usize,
    pub gap: usize,
    pub past: usize,
}

// Whether an opcode is carried, and whether the size of a write's data is fixed or varies.
#[derive(Clone, Copy, Debug, PartialEq, Eq)]
pub enum Kind {
    NotCarried,
    Fixed,
    Varies,
}

// What the table says of an opcode: its kind, and the data sizes of a write, of a read and of what
// a read returns, 0 where they vary.
#[derive(Clone, Copy)]
pub struct Row {
    pub kind: Kind,
    pub write: usize,
    pub read: usize,
    pub back: usize,
}
