// Rule 2.2: the bits of a header. Options are bits 3 to 7 in place, so both are asked alike.
ghost use Rattle.std.specs.Prelude.{◌≡◌, eqb};
ghost use Rattle.opcode.specs.Options.{«two_byte», «has_length», «has_checksum»};
ghost use Rattle.opcode.specs.Options.{«asks_reply», is_read, «destination», options_in};

#[derive(Clone, Copy, Debug, PartialEq, Eq)]
pub struct Header {
    pub bits: usize,
}

impl Header {
    // Bit 3: the opcode has two bytes.
    pub fn two_byte(self) -> bool
        ensures { result ≡ eqb («two_byte» self.bits) 1 }
    {
        self.bits / 8 % 2 == 1
    }

    // Bit 4: there is a length field.
    pub fn has_length(self) -> bool
        ensures { result ≡ eqb («has_length» self.bits) 1 }
    {
        self.bits / 16 % 2 == 1
    }

    // Bit 5: there is a checksum.
    pub fn has_checksum(self) -> bool
        ensures { result ≡ eqb («has_checksum» self.bits) 1 }
    {
        self.bits / 32 % 2 == 1
    }

    // Bit 6: a reply is requested.
    pub fn asks_reply(self) -> bool
        ensures { result ≡ eqb («asks_reply» self.bits) 1 }
    {
        self.bits / 64 % 2 == 1
    }

    // Bit 7: a read, else a write.
    pub fn reads(self) -> bool
        ensures { result ≡ eqb (is_read self.bits) 1 }
    {
        self.bits / 128 % 2 == 1
    }

    // Bits 0 to 2.
    pub fn destination(self) -> usize
        ensures { result ≡ «destination» self.bits }
    {
        self.bits % 8
    }

    // The options alone, in place.
    pub fn options(self) -> Header
        ensures { result.bits ≡ options_in self.bits }
    {
        Header {
            bits: self.bits / 8 * 8,
        }
    }
}
