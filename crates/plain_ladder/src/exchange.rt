//! What is printed where no word is wrong.
ghost use Rattle.plain_ladder.specs.Ranges.{InRanges};

/// The length of a message, and the taker's BS and STmin.
#[derive(Clone, Copy, Debug, PartialEq, Eq)]
pub(crate) struct Exchange {
    pub(crate) length: u32,
    pub(crate) bs: u32,
    pub(crate) stmin: u32,
    ghost in_ranges: { InRanges length bs stmin },
}
