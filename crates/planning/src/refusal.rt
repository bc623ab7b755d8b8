// Why planning is refused.
ghost use Rattle.std.specs.Prelude.{◌≡◌};
ghost use Rattle.planning.specs.Refusals.{number_of};

// Rule 6.4, in its order.
#[derive(Clone, Copy, Debug, PartialEq, Eq)]
pub enum Refusal {
    PointsWrong,
    LentWrong,
}

impl Refusal {
    // Its number.
    pub fn number(self) -> u8
        ensures { result ≡ number_of self }
    {
        match self {
            Refusal::PointsWrong => 10,
            Refusal::LentWrong => 1,
        }
    }
}
