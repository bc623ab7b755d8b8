// What is carried from the last point back.
ghost use Rattle.std.specs.Prelude.{◌≡◌, ◌≤◌, set};
ghost use Rattle.upload.specs.Sizes.{most_count};
ghost use Rattle.upload.specs.Internal.{«at_end», passed, opened, Bounded, PointChosen};
ghost use Rattle.planning.specs.Internal.{cost_in};

use super::MOST_COUNT;

// What is known at a point of those behind it: the least bytes, and how many points an open packet
// must be able to take for 2, for 4 and for 6 bytes fewer. MOST_COUNT says that it never can: no
// Option is plainer, since `passed` and `opened` compare and count on with it.
#[derive(Clone, Copy, Debug, PartialEq, Eq)]
pub struct CostBehind {
    pub least: u32,
    pub two: u32,
    pub four: u32,
    pub six: u32,
}

impl CostBehind {
    // Behind the last point.
    pub fn at_end() -> Self
        ensures { cost_in result ≡ «at_end» }
    {
        CostBehind {
            least: 0,
            two: MOST_COUNT,
            four: MOST_COUNT,
            six: MOST_COUNT,
        }
    }

    // At a point that does not differ.
    fn passed(self) -> Self
        requires { Bounded (cost_in self) }
        ensures { cost_in result ≡ passed (cost_in self) }
    {
        CostBehind {
            least: self.least,
            two: MOST_COUNT.min(self.six + 1),
            four: MOST_COUNT,
            six: MOST_COUNT,
        }
    }

    // At a point that differs, where a packet of `six` points would begin: the point's 4 bytes, and
    // of the 6 in front of a packet's points those that it does not save.
    fn opened(self) -> Self
        requires { Bounded (cost_in self) }
        ensures { (cost_in result ≡ opened (cost_in self)) × (result.six ≤ most_count) }
    {
        if self.six < MOST_COUNT {
            return CostBehind {
                least: self.least + 4,
                two: self.two + 1,
                four: self.four + 1,
                six: self.six + 1,
            };
        }
        if self.four < MOST_COUNT {
            return CostBehind {
                least: self.least + 6,
                two: 1,
                four: self.two + 1,
                six: self.four + 1,
            };
        }
        if self.two < MOST_COUNT {
            return CostBehind {
                least: self.least + 8,
                two: 1,
                four: 1,
                six: self.two + 1,
            };
        }
        CostBehind {
            least: self.least + 10,
            two: 1,
            four: 1,
            six: 1,
        }
    }

    // At a point that differs or not: its choice, if there is a place for it, and what is carried
    // on to the points before it.
    pub fn choose(self, differs: bool, choices: &mut [u8], i: usize) -> Self
        requires { Bounded (cost_in self) }
        ensures { PointChosen differs (cost_in self) i choices.old (cost_in result) choices.new }
    {
        if differs {
            let next = self.opened();
            put_choice(choices, i, next.six);
            return next;
        }
        put_choice(choices, i, 0);
        self.passed()
    }
}

// The choice of point i, if there is a place for it.
fn put_choice(choices: &mut [u8], i: usize, v: u32)
    requires { v ≤ most_count }
    ensures { choices.new ≡ set choices.old i v }
{
    if i < choices.len() {
        choices[i] = v as u8;
    }
}
