// The settings block: where a command's settings stand, whether every setting lies in its range,
// and reset.
#![tactic(auto)]

pub mod layout;
mod limits;

ghost use Rattle.std.specs.Prelude.{◌≡◌, ℕ, ◌+◌, ◌*◌, ◌≤◌, ◌<◌, length};
ghost use Rattle.std.proofs.lemmas.List.Edits.{sets};
ghost use Rattle.wire.specs.Tables.{bytes};
ghost use Rattle.settings.specs.Layout.{block_size, shape_size, update_place};
ghost use Rattle.settings.specs.Layout.{pin_place, pin_count, pwm_place, pwm_count};
ghost use Rattle.settings.specs.Layout.{slot, «place_of», pwm_size, smooth_table, staged_shape};
ghost use Rattle.settings.specs.Allowed.{SettingsAllowed};
ghost use Rattle.settings.specs.Ranges.{right, fields_of, behind_port, for_each};
ghost use Rattle.settings.specs.Ranges.{picture_fields, device_fields};
ghost use Rattle.settings.specs.Ranges.{rising, shape_right, InRange};
ghost use Rattle.settings.specs.Reset.{count_up, «reset_shape», «reset_block»};
ghost use Rattle.settings.specs.Internal.{spread_over, KeptSize};

use layout::*;
use limits::*;

// Whether every stored setting, staged and live, lies in its range. The bytes past them are not
// judged. Every packet asks this, so the tests are joined by `&`: without an early return they are
// taken several at a time.
pub fn in_range(block: &[u8]) -> bool
    requires { length block.now ≡ block_size }
    ensures { InRange block.now result }
{
    // The block is so long: as an array, none of its places needs a test.
    let block = block.first_chunk::<BLOCK_SIZE>().unwrap();
    picture_in_range(block)
        & shape_in_range(block, STAGED_SHAPE)
        & (block[ENABLE] <= MOST_FLAG)
        & shape_in_range(block, LIVE_SHAPE)
        & smooth_in_range(block)
        & device_in_range(block)
}

// 11h to 1Dh. Any look and any splash is right.
fn picture_in_range(block: &[u8]) -> bool
    requires { staged_shape ≤ length block.now }
    ensures { result ≡ right picture_fields block.now 0 }
{
    (block[DISPLAY] <= MOST_DISPLAY)
        & (block[LATENCY] <= MOST_FLAG)
        // Colour 0, 2-8.
        & (block[CURTAIN] <= MOST_COLOUR)
        & (block[CURTAIN] != 1)
        & (block[FLIP] <= MOST_FLIP)
        & (block[FREEZE] <= MOST_FLAG)
}

// The shape rule, of the shape at a place.
fn shape_in_range(block: &[u8], shape: usize) -> bool
    requires { shape + shape_size ≤ length block.now }
    ensures { result ≡ shape_right block.now shape }
{
    let mode = block[shape];
    let columns = wire::word(block, shape + COLUMNS);
    let rows = wire::word(block, shape + ROWS);
    (mode <= 1)
        & (LEAST_SHAPE..=MOST_COLUMNS).contains(&columns)
        & (LEAST_SHAPE..=MOST_ROWS).contains(&rows)
        // Rule 4.1, 1: mode 1 has the shape 62 × 32 alone.
        & ((mode == 0) | ((columns == COLUMN_ENTRIES) & (rows == ROW_ENTRIES)))
        & list_in_range(block, shape + COLUMN_LIST, COLUMN_ENTRIES)
        & list_in_range(block, shape + ROW_LIST, ROW_ENTRIES)
}

// So many 16-bit numbers from a place on, each above the one before it.
fn list_in_range(block: &[u8], at: usize, count: usize) -> bool
    requires { (1 ≤ count) × (at + 2 * count ≤ length block.now) }
    ensures { result ≡ rising block.now at count }
{
    let mut all = true;
    for i in 0..count - 1 {
        all &= opcode::next_above(block, at + 2 * i);
    }
    all
}

// Columns and rows of the smooth table.
fn smooth_in_range(block: &[u8; BLOCK_SIZE]) -> bool
    ensures { result ≡ right (fields_of 0x38) block.now smooth_table }
{
    let range = LEAST_SMOOTH..=MOST_SMOOTH;
    range.contains(&wire::byte(block, SMOOTH_TABLE))
        & range.contains(&wire::byte(block, SMOOTH_ROWS))
}

// Update mode, pins, PWM ports, lock and UART ports, from update mode's place on.
fn device_in_range(block: &[u8; BLOCK_SIZE]) -> bool
    ensures { result ≡ right device_fields block.now update_place }
{
    (block[UPDATE_MODE] <= MOST_UPDATE)
        & pins_in_range(block)
        & pwm_in_range(block)
        & (block[LOCK] <= MOST_FLAG)
        & uart_port_in_range(block, UART_PORTS)
        & uart_port_in_range(block, UART_PORT_1)
        & uart_port_in_range(block, UART_PORT_2)
}

// Direction, level and drain of every pin, each 0 or 1.
fn pins_in_range(block: &[u8; BLOCK_SIZE]) -> bool
    ensures { result ≡ right (for_each pin_count (behind_port 0x60)) block.now pin_place }
{
    let mut all = true;
    for pin in &block[PINS..PINS + PIN_BYTES] {
        all &= *pin <= MOST_FLAG;
    }
    all
}

// Every PWM port.
fn pwm_in_range(block: &[u8; BLOCK_SIZE]) -> bool
    ensures { result ≡ right (for_each pwm_count (behind_port 0x65)) block.now pwm_place }
{
    let mut all = true;
    for i in 0..PWM_COUNT {
        all &= pwm_port_in_range(block, PWM_PORTS + PWM_SIZE * i);
    }
    all
}

// Frequency, duty, on.
fn pwm_port_in_range(block: &[u8], at: usize) -> bool
    requires { at + 6 ≤ length block.now }
    ensures { result ≡ right (behind_port 0x65) block.now at }
{
    (LEAST_FREQUENCY..=MOST_FREQUENCY).contains(&wire::long(block, at))
        & (block[at + 4] <= MOST_DUTY)
        & (block[at + 5] <= MOST_FLAG)
}

// On, baud, bits, stop, parity, flow, two triggers, polarity, source.
fn uart_port_in_range(block: &[u8], at: usize) -> bool
    requires { at + 10 ≤ length block.now }
    ensures { result ≡ right (behind_port 0x6D) block.now at }
{
    (block[at] <= MOST_FLAG)
        & (block[at + 1] <= MOST_BAUD)
        & (block[at + 2] <= MOST_BITS)
        & (block[at + 3] <= MOST_FLAG)
        & (block[at + 4] <= MOST_PARITY)
        & (block[at + 5] <= MOST_FLAG)
        & (block[at + 6] <= MOST_TRIGGER)
        & (block[at + 7] <= MOST_TRIGGER)
        & (block[at + 8] <= MOST_FLAG)
        & (block[at + 9] <= MOST_FLAG)
}

// The place of what a fixed command stores, from its data.
#[tactic(auto, unfolding(crate::specs::Layout::place_of))]
pub fn place_of(opcode: usize, data: &[u8]) -> usize
    ensures { (result ≡ «place_of» opcode «data».now) × (result ≤ 4096) }
{
    let port = wire::byte(data, 0);
    // By number, as the rules and guides have it: variants would only name the numbers once more.
    match opcode {
        0x12 => LATENCY,
        0x13 => LOOK,
        0x1A => CURTAIN,
        0x1B => SPLASH,
        0x1C => FLIP,
        0x1D => FREEZE,
        0x36 => ENABLE,
        0x39 => UPDATE_MODE,
        0x60 => PINS + PIN_SIZE * port,
        0x61 => LEVELS + PIN_SIZE * port,
        0x65 => PWM_PORTS + PWM_SIZE * slot_of(port),
        0x6C => LOCK,
        0x6D => UART_PORTS + UART_SIZE * port,
        _ => DISPLAY,
    }
}

// How many bytes a command of a fixed size has at its place; 0 for those whose size varies, and 1
// for a number that is no opcode.
pub fn size_of(opcode: usize) -> usize
    ensures { KeptSize opcode result }
{
    // By number, as the rules and guides have it: variants would only name the numbers once more.
    match opcode {
        0x13 => LOOK_SIZE,
        0x2B => 0,
        0x34 => 0,
        0x35 => 0,
        0x38 => 0,
        0x60 => PIN_SIZE,
        0x65 => PWM_SIZE,
        0x6D => UART_SIZE,
        _ => 1,
    }
}

// Ports 0-10 and then 13.
fn slot_of(port: usize) -> usize
    requires { port < 256 }
    ensures { (result ≡ slot 0x65 port) × (result < 256) }
{
    if port == 13 { 11 } else { port }
}

// The whole block as it is after reset: zeros, and over them the two shapes, the smooth table's
// counts and the PWM frequencies.
pub fn reset_block(block: &mut [u8])
    requires { length block.old ≡ block_size }
    ensures { (block.new ≡ «reset_block») × SettingsAllowed block.new }
{
    block.fill(0);
    reset_shape(block, STAGED_SHAPE);
    reset_shape(block, LIVE_SHAPE);
    block[SMOOTH_TABLE..SMOOTH_TABLE + 2].fill(RESET_SMOOTH);
    reset_frequencies(block);
}

// Rule 5.10: all of a shape: mode 0, 62 columns, 32 rows, lists that count from 0.
fn reset_shape(block: &mut [u8], shape: usize)
    requires { shape + shape_size ≤ length block.old }
    ensures { block.new ≡ sets block.old shape «reset_shape» }
{
    wire::put_byte(block, shape, 0);
    wire::put_word(block, shape + COLUMNS, COLUMN_ENTRIES);
    wire::put_word(block, shape + ROWS, ROW_ENTRIES);
    store_counting(block, shape + COLUMN_LIST, COLUMN_ENTRIES);
    store_counting(block, shape + ROW_LIST, ROW_ENTRIES);
}

// Stores n 16-bit numbers from a place on: 0, 1, 2 and so on.
fn store_counting(block: &mut [u8], place: usize, n: usize)
    requires { (n ≤ 65536) × (place + 2 * n ≤ length block.old) }
    ensures { block.new ≡ sets block.old place (bytes (count_up 0 n)) }
{
    for i in 0..n {
        wire::put_word(block, place + 2 * i, i);
    }
}

// The low byte of every PWM port's frequency.
#[tactic(auto, unfolding(crate::specs::Internal::spread_over))]
fn reset_frequencies(block: &mut [u8])
    requires { pwm_place + pwm_size * pwm_count ≤ length block.old }
    ensures { block.new ≡ spread_over block.old pwm_place pwm_size 20 pwm_count }
{
    for port in 0..PWM_COUNT {
        block[PWM_PORTS + PWM_SIZE * port] = RESET_FREQUENCY;
    }
}
