//! A line of a program's output.
ghost use Rattle.std.specs.Prelude.{option_map};
ghost use Rattle.text.specs.Answers.{numbered_text};

use std::fmt;

/// The number of the record that is answered, a space, the words, and LF.
#[derive(Clone, Copy)]
pub struct Line<T> {
    pub number: u64,
    pub words: T,
}

impl<T: fmt::Display> fmt::Display for Line<T> {
    ghost output = { λ line. option_map (numbered_text line.number) (T.output line.words) };

    #[tactic(auto, using(crate::proofs::Numbers::number), unfolding(crate::specs::Answers::numbered_text))]
    fn fmt<W: fmt::Write>(&self, f: &mut fmt::Formatter<W>) -> fmt::Result {
        let number = self.number;
        write!(f, "{number} {}\n", self.words)
    }
}
