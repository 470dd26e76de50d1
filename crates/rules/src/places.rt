//! The berths' numbers.
ghost use Rattle.std.specs.Prelude.{◌≡◌, ◌+◌, ◌*◌, ◌≤◌, ◌<◌};
ghost use Rattle.rules.specs.Numbers.{berth_count};

use crate::Refusal;

/// The number of a berth, 0 to 9.
#[derive(Clone, Copy, Debug, PartialEq, Eq, Hash)]
pub struct BerthNumber {
    pub number: u8,
    ghost in_range: { number < berth_count },
}

impl BerthNumber {
    /// Its place among the node's berths and in a store.
    pub fn place(self) -> usize
        ensures place { result ≡ self.number }
        ensures in_range { result < berth_count }
    {
        // Casts widen, or are proved to fit: `try_from` would add an error that cannot come.
        self.number as usize
    }

    /// Where its area starts in a store of ten.
    pub fn area_start(self, area: u32) -> usize
        ensures start { result ≡ self.number * area }
        ensures within { result + area ≤ berth_count * area }
    {
        self.place() * area as usize
    }
}

impl TryFrom<u32> for BerthNumber {
    ghost use Rattle.rules.specs.Places.{NumbersBerth};

    type Error = Refusal;

    ghost try_from_gives = { NumbersBerth };

    fn try_from(number: u32) -> Result<Self, Refusal> {
        if number < crate::BERTH_COUNT as u32 {
            Ok(BerthNumber {
                number: number as u8,
            })
        } else {
            Err(Refusal::NoSuchBerth)
        }
    }
}
