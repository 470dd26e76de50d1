//! The words of the node's answers.
ghost use Rattle.std.specs.Prelude.{◌≡◌, Some, Ok, map, take};
ghost use Rattle.std.specs.Fmt.{WritesOnOk};
ghost use Rattle.rules.specs.Numbers.{frame_size};
ghost use Rattle.rules.specs.Answers.{refused as Answers-refused, frame_says, tick_says, send_says, turn_says, change_says};
ghost use Rattle.rules.specs.Words.{code_said, reported_code, word_said, codes_said};
ghost use Rattle.text.specs.Answers.{id_text, word_text, code_text, codes_text, words_of};

use crate::hex::Hex;
use rules::{Code, Codes, Heard, Refusal, Report, Turn, Word};
use std::fmt;

/// An identifier in four digits.
#[derive(Clone, Copy)]
struct Identifier(u32);

impl fmt::Display for Identifier {
    ghost output = { λ identifier. Some (id_text identifier.0) };

    // Casts widen, or are proved to fit: `try_from` would add an error that cannot come.
    #[tactic(auto, unfolding(crate::specs::Answers::id_text))]
    fn fmt<W: fmt::Write>(&self, f: &mut fmt::Formatter<W>) -> fmt::Result {
        let identifier = self.0;
        let bytes = [(identifier / 256 % 256) as u8, (identifier % 256) as u8];
        write!(f, "{}", Hex(&bytes))
    }
}

/// The number of a code, 0 for none.
pub(crate) fn code(code: Option<Code>) -> u8
    ensures { result ≡ code_said code }
{
    code.map_or(0, u8::from)
}

/// The number of the code that a send side reports, 0 for none.
pub(crate) fn reported(report: Option<Report>) -> u8
    ensures { result ≡ reported_code report }
{
    report.map_or(0, |report| u8::from(report.code))
}

/// What a frame did to the side that it came for. Whose message failed is not told.
#[derive(Clone, Copy)]
struct Said(Word);

impl fmt::Display for Said {
    ghost output = { λ said. Some (word_text (word_said said.0)) };

    #[tactic(auto, using(crate::proofs::Numbers::small, crate::proofs::Numbers::size), unfolding(crate::specs::Answers::word_text))]
    fn fmt<W: fmt::Write>(&self, f: &mut fmt::Formatter<W>) -> fmt::Result {
        match self.0 {
            Word::Delivered(length) => write!(f, " delivered {length}"),
            Word::Begun(length) => write!(f, " begun {length}"),
            Word::Failed(code, _) => write!(f, " failed {}", u8::from(code)),
            Word::Ignored(reason) => write!(f, " ignored {}", u8::from(reason)),
            Word::TooLong => f.write_str(" toolong"),
            Word::Took => f.write_str(" took"),
            Word::Going => f.write_str(" going"),
            Word::Waiting => f.write_str(" waiting"),
        }
    }
}

/// A berth's codes of a tick, nothing where it has none.
#[derive(Clone, Copy)]
struct BerthCodes {
    berth: u8,
    codes: Codes,
}

impl fmt::Display for BerthCodes {
    ghost output = { λ here. Some (code_text here.berth (codes_said here.codes)) };

    #[tactic(auto, using(crate::proofs::Numbers::small), unfolding(crate::specs::Answers::code_text))]
    fn fmt<W: fmt::Write>(&self, f: &mut fmt::Formatter<W>) -> fmt::Result {
        let berth = self.berth;
        let receive = code(self.codes.receive);
        let send = reported(self.codes.send);
        // The numbers that would be printed: 0 is none.
        if receive == 0 && send == 0 {
            return Ok(());
        }
        write!(f, " {berth}:{receive}:{send}")
    }
}

/// The codes of all berths, in order. An array behind a parameter has its length in a proof, one behind a field has not: so no type of its own.
#[tactic(auto, unfolding(crate::specs::Answers::codes_text))]
fn write_codes<W: fmt::Write>(f: &mut fmt::Formatter<W>, all: &[Codes; 10]) -> fmt::Result
    ensures { WritesOnOk W.write_str_gives f.old result (codes_text 0 (map codes_said all.now)) f.new }
{
    for (berth, codes) in all.iter().enumerate() {
        let here = BerthCodes {
            berth: berth as u8,
            codes: *codes,
        };
        write!(f, "{here}")?;
    }
    Ok(())
}

/// What a refused call answers.
#[derive(Clone, Copy)]
pub struct Refused(pub u8);

impl fmt::Display for Refused {
    ghost output = { λ words. Some (words_of (Answers-refused words.0)) };

    #[tactic(auto, using(crate::proofs::Numbers::small), unfolding(crate::specs::Answers::words_of))]
    fn fmt<W: fmt::Write>(&self, f: &mut fmt::Formatter<W>) -> fmt::Result {
        let refusal = self.0;
        write!(f, "refused {refusal}")
    }
}

/// What a frame that is not refused answers.
#[derive(Clone, Copy)]
struct HeardWords(Heard);

impl fmt::Display for HeardWords {
    ghost output = { λ words. Some (words_of (frame_says (Ok words.0))) };

    #[tactic(auto, using(crate::proofs::Numbers::small), unfolding(rules::specs::Answers::frame_says, crate::specs::Answers::words_of))]
    fn fmt<W: fmt::Write>(&self, f: &mut fmt::Formatter<W>) -> fmt::Result {
        let berth = self.0.berth;
        let old = code(self.0.old);
        write!(f, "berth {berth} old {old}{}", Said(self.0.word))
    }
}

/// What a frame answers.
#[derive(Clone, Copy)]
pub struct FrameWords(pub Result<Heard, Refusal>);

impl fmt::Display for FrameWords {
    ghost output = { λ words. Some (words_of (frame_says words.0)) };

    #[tactic(auto, unfolding(rules::specs::Answers::frame_says, crate::specs::Answers::words_of))]
    fn fmt<W: fmt::Write>(&self, f: &mut fmt::Formatter<W>) -> fmt::Result {
        match self.0 {
            Err(refusal) => write!(f, "{}", Refused(u8::from(refusal))),
            Ok(heard) => write!(f, "{}", HeardWords(heard)),
        }
    }
}

/// What a tick answers.
#[derive(Clone, Copy)]
pub struct TickWords(pub Result<[Codes; 10], Refusal>);

impl fmt::Display for TickWords {
    ghost output = { λ words. Some (words_of (tick_says words.0)) };

    #[tactic(auto, unfolding(rules::specs::Answers::tick_says, crate::specs::Answers::words_of))]
    fn fmt<W: fmt::Write>(&self, f: &mut fmt::Formatter<W>) -> fmt::Result {
        match &self.0 {
            Err(refusal) => write!(f, "{}", Refused(u8::from(*refusal))),
            Ok(codes) => {
                f.write_str("tick")?;
                write_codes(f, codes)
            }
        }
    }
}

/// What a send answers.
#[derive(Clone, Copy)]
pub struct SendWords(pub Result<u8, Refusal>);

impl fmt::Display for SendWords {
    ghost output = { λ words. Some (words_of (send_says words.0)) };

    #[tactic(auto, using(crate::proofs::Numbers::small), unfolding(rules::specs::Answers::send_says, crate::specs::Answers::words_of))]
    fn fmt<W: fmt::Write>(&self, f: &mut fmt::Formatter<W>) -> fmt::Result {
        match self.0 {
            Err(refusal) => write!(f, "{}", Refused(u8::from(refusal))),
            Ok(berth) => write!(f, "sent {berth}"),
        }
    }
}

/// What a change answers.
#[derive(Clone, Copy)]
pub struct ChangeWords(pub Result<u8, Refusal>);

impl fmt::Display for ChangeWords {
    ghost output = { λ words. Some (words_of (change_says words.0)) };

    #[tactic(auto, using(crate::proofs::Numbers::small), unfolding(rules::specs::Answers::change_says, crate::specs::Answers::words_of))]
    fn fmt<W: fmt::Write>(&self, f: &mut fmt::Formatter<W>) -> fmt::Result {
        match self.0 {
            Err(refusal) => write!(f, "{}", Refused(u8::from(refusal))),
            Ok(berth) => write!(f, "changed {berth}"),
        }
    }
}

/// What a turn answers. The frame that was handed over is the buffer's first eight bytes.
#[derive(Clone, Copy)]
pub struct TurnWords<'a> {
    pub answer: Result<Turn, Refusal>,
    pub buffer: &'a [u8],
}

impl fmt::Display for TurnWords<'_> {
    ghost output = { λ words. Some (words_of (turn_says words.answer words.buffer.now)) };

    #[tactic(auto, using(crate::proofs::Numbers::small), unfolding(rules::specs::Answers::turn_says, crate::specs::Answers::words_of))]
    fn fmt<W: fmt::Write>(&self, f: &mut fmt::Formatter<W>) -> fmt::Result {
        match self.answer {
            Err(refusal) => write!(f, "{}", Refused(u8::from(refusal))),
            Ok(Turn::None(_)) => f.write_str("none"),
            Ok(
                Turn::HandedOver {
                    identifier,
                    report,
                    passed,
                },
            ) => {
                let id = Identifier(identifier);
                let frame = Hex(first_eight(self.buffer));
                let code = reported(report);
                write!(f, "frame {id} {frame} passed {passed} code {code}")
            }
        }
    }
}

pub(crate) fn first_eight(buffer: &[u8]) -> &[u8]
    ensures { result.now ≡ take frame_size buffer.now }
{
    if buffer.len() < 8 {
        return buffer;
    }
    &buffer[..8]
}
