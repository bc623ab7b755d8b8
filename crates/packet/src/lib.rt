// Packets: reading one for the front end, making one for the host.
#![tactic(auto)]

ghost use Rattle.std.specs.Prelude.{◌≡◌, cond, [], ◌∷◌, ◌+◌, ◌*◌, ◌<◌, ◌≤◌, length, take, drop, eqb};
ghost use Rattle.std.proofs.lemmas.List.Edits.{sets};
ghost use Rattle.wire.specs.Numbers.{byte_at, word_at, word_bytes};
ghost use Rattle.wire.specs.Checksum.{«checksum»};
ghost use Rattle.wire.specs.Buffers.{Overwrites};
ghost use Rattle.opcode.specs.Options.{two_byte, has_length, has_checksum};
ghost use Rattle.packet.specs.Reading.{answer, «checksum_differs»};
ghost use Rattle.packet.specs.Frame.{«fields», «announced»};
ghost use Rattle.packet.specs.Making.{present, packet_of, made_told};
ghost use Rattle.packet.specs.Promises.{PacketRead, PacketMade};
ghost use Rattle.packet.specs.Plain.{AnnouncedPlain};
ghost use Rattle.packet.specs.Internal.{framed, frame_answer};

use opcode::Header;
use wire::{LONGEST, Refusal};

// A command with its options (header bits 3 to 7 in place) and the place of its data.
#[derive(Clone, Copy, Debug, PartialEq, Eq)]
pub struct Command {
    pub opcode: u8,
    pub options: u8,
    pub at: usize,
    pub size: usize,
}

impl Command {
    // The options, to ask for one.
    pub fn header(self) -> Header
        ensures { result.bits ≡ self.options }
    {
        Header {
            bits: self.options as usize,
        }
    }

    // Its data, of the packet that it was read from.
    pub fn data(self, packet: &[u8]) -> &[u8]
        requires { self.at + self.size ≤ length packet.now }
        ensures { result.now ≡ take self.size (drop self.at packet.now) }
    {
        &packet[self.at..self.at + self.size]
    }
}

// A place in a packet. Each step hands back what it took and the moved place.
#[derive(Clone, Copy)]
struct Cursor<'a> {
    packet: &'a [u8],
    at: usize,
}

impl<'a> Cursor<'a> {
    // The header byte, 0 for an empty packet.
    fn header(self) -> (Header, Cursor<'a>)
        requires { self.at ≤ 512 }
        ensures { (result.0.bits ≡ byte_at self.entry.packet.now self.entry.at) × (result.0.bits < 256)
            × (result.1.packet.now ≡ self.entry.packet.now) × (result.1.at ≡ self.entry.at + 1) }
    {
        let bits = wire::byte(self.packet, self.at);
        (Header { bits }, self.moved(1))
    }

    // One byte, or two if the header says so.
    fn opcode(self, header: Header) -> (usize, Cursor<'a>)
        requires { self.at ≤ 512 }
        ensures { (result.0 ≡ byte_at self.entry.packet.now self.entry.at
            + 256 * (two_byte header.bits * byte_at self.entry.packet.now (self.entry.at + 1)))
            × (result.0 < 65536) × (result.1.packet.now ≡ self.entry.packet.now)
            × (result.1.at ≡ self.entry.at + 1 + two_byte header.bits) }
    {
        if header.two_byte() {
            return (wire::word(self.packet, self.at), self.moved(2));
        }
        (wire::byte(self.packet, self.at), self.moved(1))
    }

    // The length field; where the header announces none, the number of data bytes there.
    fn length(self, header: Header, there: usize) -> (usize, Cursor<'a>)
        requires { self.at ≤ 512 }
        ensures { (result.0 ≡ cond (eqb (has_length header.bits) 1)
            (word_at self.entry.packet.now self.entry.at) there)
            × (there < 65536 → result.0 < 65536)
            × (result.1.at ≡ self.entry.at + 2 * has_length header.bits) }
    {
        if header.has_length() {
            return (wire::word(self.packet, self.at), self.moved(2));
        }
        (there, self)
    }

    fn moved(self, n: usize) -> Cursor<'a>
        requires { (self.at ≤ 512) × (n ≤ 2) }
        ensures { (result.packet.now ≡ self.entry.packet.now) × (result.at ≡ self.entry.at + n) }
    {
        Cursor {
            packet: self.packet,
            at: self.at + n,
        }
    }
}

// What stands in a packet whose frame is sound and meant for us.
#[derive(Clone, Copy)]
struct Frame {
    opcode: usize,
    options: Header,
    at: usize,
    size: usize,
}

// Reads a packet: any bytes, any length.
pub fn read(packet: &[u8]) -> Result<Command, Refusal>
    ensures { PacketRead packet.now (answer result) }
{
    let frame = frame_of(packet)?;
    let data = &packet[frame.at..frame.at + frame.size];
    opcode::judge(frame.opcode, frame.options, data)?;
    Ok(Command {
        opcode: frame.opcode as u8,
        options: frame.options.bits as u8,
        at: frame.at,
        size: frame.size,
    })
}

// The bytes that a header, or options in place, announce besides data.
fn fields(header: Header) -> usize
    ensures { result ≡ «fields» header.bits }
{
    2 + header.two_byte() as usize
        + 2 * header.has_length() as usize
        + header.has_checksum() as usize
}

// How many bytes a packet at the start of these has by its header and its length field: any bytes,
// and there may be fewer.
pub fn announced(bytes: &[u8]) -> usize
    ensures { (result ≡ «announced» bytes.now) × AnnouncedPlain bytes.now result }
{
    let start = Cursor {
        packet: bytes,
        at: 0,
    };
    let (header, cursor) = start.header();
    let (_, cursor) = cursor.opcode(header);
    let (length, _) = cursor.length(header, 0);
    fields(header) + length
}

// Steps through header, opcode and length, and tests the frame: refusals 2 to 6.
#[tactic(auto, unfolding(crate::specs::Internal::framed))]
fn frame_of(packet: &[u8]) -> Result<Frame, Refusal>
    ensures { frame_answer result ≡ framed packet.now }
{
    let (header, cursor) = Cursor { packet, at: 0 }.header();
    let least = fields(header);
    if packet.len() < least {
        return Err(Refusal::TooShort);
    }
    if LONGEST < packet.len() {
        return Err(Refusal::TooLong);
    }
    let size = packet.len() - least;
    let (opcode, cursor) = cursor.opcode(header);
    let (length, cursor) = cursor.length(header, size);
    if length != size {
        return Err(Refusal::LengthDiffers);
    }
    if checksum_differs(packet, header) {
        return Err(Refusal::ChecksumDiffers);
    }
    if header.destination() != 4 {
        return Err(Refusal::NotForUs);
    }
    Ok(Frame {
        opcode,
        options: header.options(),
        at: cursor.at,
        size,
    })
}

// Whether the last byte differs from the checksum of those before it, where the header announces
// one.
fn checksum_differs(packet: &[u8], header: Header) -> bool
    requires { (header.bits ≡ byte_at packet.now 0) × (1 < length packet.now) }
    ensures { result ≡ «checksum_differs» packet.now }
{
    let n = packet.len() - 1;
    header.has_checksum() && wire::byte(packet, n) != wire::checksum(packet, n)
}

// Makes a packet in the buffer, and answers its size: any opcode, any options (header bits 3 to 7
// in place, the others not looked at), any data, any buffer.
pub fn make(opcode: u16, options: u8, data: &[u8], buffer: &mut [u8]) -> Result<usize, Refusal>
    ensures { PacketMade opcode options «data».now buffer.old (made_told result buffer.new) }
{
    if buffer.len() < LONGEST {
        return Err(Refusal::LentWrong);
    }
    let options = Header {
        bits: options as usize,
    }
    .options();
    if LONGEST - fields(options) < data.len() {
        return Err(Refusal::TooLong);
    }
    opcode::judge(opcode as usize, options, data)?;
    Ok(write_packet(buffer, opcode as usize, options, data))
}

// Writes a packet that fits, field by field, and answers its size.
fn write_packet(buffer: &mut [u8], opcode: usize, options: Header, data: &[u8]) -> usize
    requires { (opcode < 256) × (options.bits ≤ 248) × (512 ≤ length buffer.old)
        × («fields» options.bits + length «data».now ≤ 512) }
    ensures { Overwrites result (packet_of opcode options.bits «data».now) buffer.old buffer.new }
{
    wire::put_byte(buffer, 0, 4 + options.bits);
    wire::put_byte(buffer, 1, opcode);
    let at = put_high(buffer, 2, options);
    let place = put_length(buffer, at, options, data.len());
    wire::copy(buffer, place, data, 0, data.len());
    put_checksum(buffer, place + data.len(), options)
}

// The high byte of a two-byte opcode, if there is to be one. Answers the next place, as the two
// below do.
fn put_high(buffer: &mut [u8], at: usize, options: Header) -> usize
    requires { at + two_byte options.bits ≤ length buffer.old }
    ensures { (result ≡ at + two_byte options.bits)
        × (buffer.new ≡ sets buffer.old at (present (two_byte options.bits) (0 ∷ []))) }
{
    if options.two_byte() {
        wire::put_byte(buffer, at, 0);
        return at + 1;
    }
    at
}

// The length field, if there is to be one.
fn put_length(buffer: &mut [u8], at: usize, options: Header, n: usize) -> usize
    requires { (at + 2 * has_length options.bits ≤ length buffer.old) × (n < 65536) }
    ensures { (result ≡ at + 2 * has_length options.bits)
        × (buffer.new ≡ sets buffer.old at (present (has_length options.bits) (word_bytes n))) }
{
    if options.has_length() {
        wire::put_word(buffer, at, n);
        return at + 2;
    }
    at
}

// The checksum of the bytes before a place, if there is to be one.
fn put_checksum(buffer: &mut [u8], at: usize, options: Header) -> usize
    requires { at + has_checksum options.bits ≤ length buffer.old }
    ensures { (result ≡ at + has_checksum options.bits)
        × (buffer.new ≡ sets buffer.old at
        (present (has_checksum options.bits) («checksum» (take at buffer.old) ∷ []))) }
{
    if options.has_checksum() {
        let sum = wire::checksum(buffer, at);
        wire::put_byte(buffer, at, sum);
        return at + 1;
    }
    at
}
