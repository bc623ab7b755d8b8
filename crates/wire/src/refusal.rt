// Why a packet, or what is lent, is refused.
ghost use Rattle.std.specs.Prelude.{◌≡◌};
ghost use Rattle.wire.specs.Refusals.{number_of, place_of};

// Rule 4.1, in its order.
#[derive(Clone, Copy, Debug, PartialEq, Eq)]
pub enum Refusal {
    LentWrong,
    TooShort,
    TooLong,
    LengthDiffers,
    ChecksumDiffers,
    NotForUs,
    Unknown,
    LacksLength,
    SizeWrong,
    // Rule 4.6: the place of the fault, its offset in the data.
    ValueWrong(usize),
    NamedOnly,
    RunsPast,
}

impl Refusal {
    // Its number, from 1 to 12.
    pub fn number(self) -> u8
        ensures { result ≡ number_of self }
    {
        match self {
            Refusal::LentWrong => 1,
            Refusal::TooShort => 2,
            Refusal::TooLong => 3,
            Refusal::LengthDiffers => 4,
            Refusal::ChecksumDiffers => 5,
            Refusal::NotForUs => 6,
            Refusal::Unknown => 7,
            Refusal::LacksLength => 8,
            Refusal::SizeWrong => 9,
            Refusal::ValueWrong(_) => 10,
            Refusal::NamedOnly => 11,
            Refusal::RunsPast => 12,
        }
    }

    // The place that it names, 0 for none.
    pub fn place(self) -> usize
        ensures { result ≡ place_of self }
    {
        match self {
            Refusal::ValueWrong(place) => place,
            _ => 0,
        }
    }
}
