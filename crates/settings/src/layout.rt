// Where the settings stand in the block, as docs/LAYOUT.md has it: specs/Layout, for the code.

pub const BLOCK_SIZE: usize = 1024;

// 11h to 1Dh.
pub const DISPLAY: usize = 0;

pub const LATENCY: usize = 1;

pub const LOOK: usize = 2;

pub const LOOK_SIZE: usize = 2;

pub const CURTAIN: usize = 4;

pub const SPLASH: usize = 5;

pub const FLIP: usize = 6;

pub const FREEZE: usize = 7;

// 35h: mode, columns, rows, and the two lists.
pub const STAGED_SHAPE: usize = 8;

pub const SHAPE_SIZE: usize = 193;

// Of a shape that stands at a place, how far behind it.
pub const COLUMNS: usize = 1;

pub const ROWS: usize = 3;

pub const COLUMN_LIST: usize = 5;

pub const ROW_LIST: usize = 129;

pub const COLUMN_ENTRIES: usize = 62;

pub const ROW_ENTRIES: usize = 32;

// Mode, columns and rows; both lists.
pub const SHAPE_HEAD: usize = COLUMN_LIST;

pub const LISTS_SIZE: usize = SHAPE_SIZE - SHAPE_HEAD;

// The data of 35h in mode 1: the mode and both lists.
pub const LISTED_DATA: usize = 1 + LISTS_SIZE;

// Of the staged shape.
pub const STAGED_COLUMNS: usize = STAGED_SHAPE + COLUMNS;

pub const STAGED_ROWS: usize = STAGED_SHAPE + ROWS;

pub const STAGED_LISTS: usize = STAGED_SHAPE + SHAPE_HEAD;

// 36h: enable, and then the live shape.
pub const ENABLE: usize = 201;

pub const LIVE_SHAPE: usize = 202;

// 38h: columns, rows, points.
pub const SMOOTH_TABLE: usize = 395;

pub const SMOOTH_ROWS: usize = SMOOTH_TABLE + 1;

// 39h.
pub const UPDATE_MODE: usize = 497;

// 60h and 61h: direction, level and drain of each pin.
pub const PINS: usize = 498;

pub const PIN_SIZE: usize = 3;

pub const PIN_COUNT: usize = opcode::limits::MOST_PIN + 1;

pub const PIN_BYTES: usize = PIN_COUNT * PIN_SIZE;

pub const LEVELS: usize = PINS + 1;

// 65h: frequency, duty and on of each port.
pub const PWM_PORTS: usize = 762;

pub const PWM_COUNT: usize = 12;

pub const PWM_SIZE: usize = 6;

// 6Ch.
pub const LOCK: usize = 834;

// 6Dh: the settings of three ports.
pub const UART_PORTS: usize = 835;

pub const UART_SIZE: usize = 10;

pub const UART_PORT_1: usize = UART_PORTS + UART_SIZE;

pub const UART_PORT_2: usize = UART_PORT_1 + UART_SIZE;

// Behind the settings: the row mark.
pub const ROW_MARK: usize = 865;

pub const ROW_MARK_SIZE: usize = 4;

// Its higher two bytes.
pub const ROW_MARK_HIGH: usize = ROW_MARK + 2;
