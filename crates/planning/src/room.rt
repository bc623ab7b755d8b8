// Working rooms of 32-bit numbers, however they are lent: as the numbers, or as their bytes.
ghost use Rattle.std.specs.Prelude.{◌≡◌, ◌*◌, ℕ, List, length, drop, set, replicate};
ghost use Rattle.wire.specs.Tables.{longs};
ghost use Rattle.wire.specs.Elements.{themselves};
ghost use Rattle.planning.specs.Rooms.{RoomLaws, long_laws, byte_laws};

// Rule 1.3: what a room is made of: 32-bit numbers, one for each number, or bytes, four for each,
// low byte first. A last part of a number is none.
pub trait Room: Copy {
    const WIDTH: usize;

    ghost WIDTH: { ℕ };

    // The numbers that a room holds.
    ghost longs: { List Self → List ℕ };

    ghost laws: { RoomLaws WIDTH longs };

    // Number i, if the room has it. What lies behind the numbers stays.
    fn keep(room: &mut [Self], i: usize, v: u32)
        ensures kept { longs room.new ≡ set (longs room.old) i v }
        ensures behind { drop (WIDTH * length (longs room.old)) room.new
            ≡ drop (WIDTH * length (longs room.old)) room.old };

    // Zeros for all numbers. What lies behind them stays.
    fn clear(room: &mut [Self])
        ensures cleared { longs room.new ≡ replicate (length (longs room.old)) 0 }
        ensures behind { drop (WIDTH * length (longs room.old)) room.new
            ≡ drop (WIDTH * length (longs room.old)) room.old };
}

impl Room for u32 {
    const WIDTH: usize = 1;

    ghost WIDTH = { 1 };

    ghost longs = { themselves };

    ghost laws = { long_laws };

    fn keep(room: &mut [u32], i: usize, v: u32) {
        if i < room.len() {
            room[i] = v;
        }
    }

    fn clear(room: &mut [u32]) {
        room.fill(0);
    }
}

impl Room for u8 {
    const WIDTH: usize = 4;

    ghost WIDTH = { 4 };

    ghost longs = { longs };

    ghost laws = { byte_laws };

    fn keep(room: &mut [u8], i: usize, v: u32) {
        // By halves, since the definitions have a room of bytes as words, and words as numbers.
        if i < room.len() / 4 {
            wire::put_word(room, 4 * i, (v % 65536) as usize);
            wire::put_word(room, 4 * i + 2, (v / 65536) as usize);
        }
    }

    fn clear(room: &mut [u8]) {
        let whole = 4 * (room.len() / 4);
        room[..whole].fill(0);
    }
}
