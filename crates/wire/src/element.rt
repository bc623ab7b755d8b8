// Lists of 16-bit numbers, however they are lent: as the numbers, or as their bytes.
ghost use Rattle.std.specs.Prelude.{◌≡◌, ◌<◌, ◌≤◌, ◌+◌, ◌*◌, ℕ, List, length, get_or, take, drop};
ghost use Rattle.wire.specs.Tables.{words};
ghost use Rattle.wire.specs.Elements.{ElementLaws, themselves};
ghost use Rattle.wire.specs.ElementsHeld.{number_laws, byte_laws};

// Rule 1.3: what such a list is made of: 16-bit numbers, one for each number, or bytes, two for
// each, low byte first. A last byte alone is no number.
pub trait Element: Copy {
    const WIDTH: usize;

    ghost WIDTH: { ℕ };

    // The numbers that a list holds.
    ghost numbers: { List Self → List ℕ };

    ghost laws: { ElementLaws WIDTH numbers };

    // How many they are.
    fn count(list: &[Self]) -> usize
        ensures { result ≡ length (numbers list.now) };

    // Number i.
    fn number(list: &[Self], i: usize) -> u16
        requires { i < length (numbers list.now) }
        ensures { result ≡ get_or (numbers list.now) i 0 };
}

impl Element for u16 {
    const WIDTH: usize = 1;

    ghost WIDTH = { 1 };

    ghost numbers = { themselves };

    ghost laws = { number_laws };

    fn count(list: &[u16]) -> usize {
        list.len()
    }

    fn number(list: &[u16], i: usize) -> u16 {
        list[i]
    }
}

impl Element for u8 {
    const WIDTH: usize = 2;

    ghost WIDTH = { 2 };

    ghost numbers = { words };

    ghost laws = { byte_laws };

    fn count(list: &[u8]) -> usize {
        list.len() / 2
    }

    // Inlined before it is simplified: then a compiler compares it with a limit byte by byte, which
    // was measured faster than as a word.
    #[inline(always)]
    fn number(list: &[u8], i: usize) -> u16 {
        super::number(list[2 * i], list[2 * i + 1])
    }
}

// n numbers of a list, from a place on.
pub fn part<T: Element>(list: &[T], from: usize, n: usize) -> &[T]
    requires { from + n ≤ length (T.numbers list.now) }
    ensures { T.numbers result.now ≡ take n (drop from (T.numbers list.now)) }
{
    &list[T::WIDTH * from..T::WIDTH * (from + n)]
}
