// A batch under writing: packets, one behind the other, in the caller's buffer. A packet is its
// head, then numbers of 16 bits, one by one or as a part of a list.
#![tactic(auto)]

ghost use Rattle.std.specs.Prelude.{◌≡◌, ◌+◌, ◌*◌, ◌≤◌, ◌<◌, length};
ghost use Rattle.wire.specs.Numbers.{word_bytes};
ghost use Rattle.wire.specs.Tables.{bytes};
ghost use Rattle.upload.specs.Plan.{packet_for};
ghost use Rattle.upload.specs.Parts.{«part»};
ghost use Rattle.batch.specs.Pairs.{pairs_packet};
ghost use Rattle.batch.specs.Internal.{behind, WordFits, head_of, HeadFits};
ghost use Rattle.batch.specs.Writing.{PacketFits, PairsFit};

use tables::Table;

// Rule 6.6: the caller's buffer, and how far it is filled.
#[derive(Drop)]
pub struct Batch<'a> {
    pub buffer: &'a mut [u8],
    pub filled: usize,
}

// How many packets a batch has, and how many bytes they are.
#[derive(Clone, Copy, Debug, PartialEq, Eq)]
pub struct Sent {
    pub packets: usize,
    pub bytes: usize,
}

impl<'a> Batch<'a> {
    // A number.
    fn word(&mut self, v: usize)
        requires { WordFits self.old.buffer.now self.old.filled v }
        ensures { self.new ≡ behind self.old (word_bytes v) }
    {
        wire::put_word(self.buffer, self.filled, v);
        self.filled += 2;
    }

    // What a packet begins with: header 14h and the opcode, and how many bytes of data follow.
    fn head(&mut self, opcode: usize, size: usize)
        requires { HeadFits self.old.buffer.now self.old.filled opcode size }
        ensures { self.new ≡ behind self.old (head_of opcode size) }
    {
        self.word(0x14 + 256 * opcode);
        self.word(size);
    }

    // The numbers of a list.
    fn words<T: Table>(&mut self, list: &[T])
        requires { self.old.filled + 2 * length (T.numbers list.now)
            ≤ length self.old.buffer.now }
        ensures { self.new ≡ behind self.old (bytes (T.numbers list.now)) }
    {
        T::words_out(self.buffer, self.filled, list);
        self.filled += 2 * T::count(list);
    }

    // One 34h packet: start and points of the map.
    pub fn put_packet<T: Table>(&mut self, wanted: &[T], start: usize, count: usize)
        requires { PacketFits self.old.buffer.now self.old.filled (T.numbers wanted.now) start count }
        ensures { self.new ≡ behind self.old (packet_for (T.numbers wanted.now) (part start count)) }
    {
        self.head(0x34, 2 + 4 * count);
        self.word(start);
        self.words(wire::part(wanted, 2 * start, 2 * count));
    }

    // One 2Bh packet of compressed gains: these words of pairs.
    pub fn put_pairs<T: Table>(&mut self, words: &[T], colour: usize, start: usize)
        requires { PairsFit self.old.buffer.now self.old.filled (T.numbers words.now) colour start }
        ensures { self.new ≡ behind self.old (pairs_packet colour start (T.numbers words.now)) }
    {
        let n = T::count(words);
        self.head(0x2B, 6 + 2 * n);
        // Flag 1 and the colour.
        self.word(1 + 256 * colour);
        self.word(n);
        self.word(start);
        self.words(words);
    }
}
