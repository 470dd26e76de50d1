//! What is put out: the records of a line, with a turn record behind each where that is asked for; and the line of a record.
ghost use Rattle.std.specs.Prelude.{◌≡◌, ◌++◌, OnOk, map};
ghost use Rattle.std.specs.Io.KnownBytes.{Appends};
ghost use Rattle.records.specs.Made.{turn_record};
ghost use Rattle.candump.specs.Answers.{text_of};
ghost use Rattle.candump.specs.Files.{joined};
ghost use Rattle.candump_converter.specs.Pieces.{with_turn, line_records};

use candump::{LineRead, Written};
use records::made::RECORD;
use std::io::{self, Write};

// A record and its turn record are one piece, so that they are written at once.
const PIECE: usize = RECORD * 2;

fn piece(record: &[u8; RECORD]) -> [u8; PIECE]
    ensures { result ≡ record.now ++ turn_record }
{
    let mut bytes = [0; PIECE];
    bytes[..RECORD].copy_from_slice(record);
    bytes[RECORD..].copy_from_slice(&records::made::turn());
    bytes
}

// The flag is asked here alone; a closure would be handed through two functions in its place, and the clause names the flag.
#[tactic(auto, unfolding(crate::specs::Pieces::with_turn))]
fn put<W: Write>(output: &mut W, turns: bool, bytes: &[u8; RECORD]) -> io::Result<()>
    ensures { OnOk result (Appends (W.contents output.old) (W.contents output.new) (with_turn turns bytes.now)) }
{
    if turns {
        return output.write_all(&piece(bytes));
    }
    output.write_all(bytes)
}

/// A line's ticks and its frame.
pub(crate) fn line<W: Write>(output: &mut W, turns: bool, read: &LineRead) -> io::Result<()>
    ensures { OnOk result (Appends (W.contents output.old) (W.contents output.new) (joined (map (with_turn turns) (line_records read.now.ticks read.now.bytes)))) }
{
    for _ in 0..read.ticks {
        put(output, turns, &records::made::tick())?;
    }
    put(output, turns, &read.bytes)
}

/// The line of a record, none but of a frame's.
#[tactic(auto, unfolding(candump::specs::Answers::text_of))]
pub(crate) fn written<W: Write>(output: &mut W, written: &Written) -> io::Result<()>
    ensures { OnOk result (Appends (W.contents output.old) (W.contents output.new) (text_of written.now.line)) }
{
    match written.line {
        Some(line) => write!(output, "{line}"),
        None => Ok(()),
    }
}
