//! Records that are made: of a frame, a tick and a turn.
ghost use Rattle.std.specs.Prelude.{◌≡◌, ◌∷◌, replicate};
ghost use Rattle.records.specs.Made.{frame_record, tick_record, turn_record};

use crate::{FRAME, TICK, TURN};

/// The bytes of a record.
pub const RECORD: usize = 16;

/// The record of a frame, with the low 16 bits of the identifier. The eight bytes are the data and, behind them, zeros: the caller sees to
/// that, else the record is bad to its reader.
// As a record has them: eight bytes, and how many of them count.
#[tactic(auto, unfolding(crate::specs::Made::frame_record))]
pub fn frame(identifier: u32, length: u8, eight: [u8; 8]) -> [u8; RECORD]
    ensures { result ≡ frame_record identifier length eight }
{
    let mut record = of_kind(FRAME);
    record[2..4].copy_from_slice(&identifier.to_be_bytes()[2..]);
    record[4] = length;
    record[8..].copy_from_slice(&eight);
    record
}

pub fn tick() -> [u8; RECORD]
    ensures { result ≡ tick_record }
{
    of_kind(TICK)
}

pub fn turn() -> [u8; RECORD]
    ensures { result ≡ turn_record }
{
    of_kind(TURN)
}

fn of_kind(kind: u8) -> [u8; RECORD]
    ensures { result ≡ kind ∷ replicate 15 0 }
{
    let mut record = [0; RECORD];
    record[0] = kind;
    record
}
