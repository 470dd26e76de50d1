//! The line of a frame, as its text.
ghost use Rattle.std.specs.Prelude.{◌<◌, ◌≤◌, Some};
ghost use Rattle.candump.specs.Lines.{line_of, most_identifier};
ghost use Rattle.candump.specs.Writing.{eleven_digits, written_parts};

use std::fmt;
use text::hex::Hex;

/// In microseconds.
pub(crate) const SECOND: u64 = 1_000_000;

/// A frame that can be written: `Display` writes its line, with the LF at its end.
// Types that are made to be written at once: nothing compares them, so they derive no equality.
#[derive(Clone, Copy)]
pub struct FrameLine<'a> {
    /// In microseconds.
    pub time: u64,
    pub name: &'a str,
    pub identifier: u32,
    pub payload: &'a [u8],
    ghost writable: { (time < eleven_digits) × (identifier ≤ most_identifier) },
}

impl fmt::Display for FrameLine<'_> {
    ghost output = { λ line. Some (line_of (written_parts line.time line.name.now line.identifier line.payload.now)) };

    // Casts widen, or are proved to fit: `try_from` would add an error that cannot come.
    #[tactic(auto, using(crate::proofs::LineTexts::seconds_printed, crate::proofs::LineTexts::decimals_printed, crate::proofs::LineTexts::high_printed), unfolding(crate::specs::Lines::line_of, crate::specs::Writing::written_parts))]
    fn fmt<W: fmt::Write>(&self, f: &mut fmt::Formatter<W>) -> fmt::Result {
        let seconds = self.time / SECOND;
        let decimals = self.time % SECOND;
        let name = self.name;
        let high = self.identifier / 256;
        let low = [(self.identifier % 256) as u8];
        write!(
            f,
            "({seconds}.{decimals:06}) {name} {high}{}#{}\n",
            Hex(&low),
            Hex(self.payload)
        )
    }
}
