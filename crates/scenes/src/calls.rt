//! The records that go to the node's calls. A store comes as long as it is lent, and of the cards so many as are lent.
ghost use Rattle.std.specs.Prelude.{◌<◌};

use crate::numbers::{four, two};
use crate::parties::Parties;
use crate::scene::Scene;
use crate::words::Part;
use pieces::SIZE;
use records::record::unused;
use std::io::{self, Write};
use text::words::{ChangeWords, FrameWords, SendWords, TickWords, TurnWords};

/// A frame has so many data bytes at most: the record's eight, and zeros behind them.
const MOST_DATA: usize = 15;

/// A send's message is no longer.
const LONGEST: usize = 4096;

/// A turn's buffer is no longer.
const MOST_ROOM: usize = 32;

/// A call of the node, with its numbers as they stand in the record, good or bad to the node.
// What was parsed or is lent: nothing compares or prints it, so it derives no equality.
#[derive(Clone, Copy)]
pub(crate) enum Call {
    Frame {
        identifier: u32,
        data: [u8; MOST_DATA],
        length: usize,
    },
    Tick,
    Send {
        berth: u32,
        party: u32,
        length: usize,
        first: u8,
    },
    Turn {
        room: usize,
    },
    SetUp {
        area: u32,
        block: u32,
        stmin: u32,
    },
    Change {
        berth: u32,
        parameter: u32,
        value: u32,
    },
}

impl Call {
    /// None where the record is no good one of these.
    pub(crate) fn read(record: &[u8; SIZE]) -> Option<Call> {
        match record[0] {
            1 => frame(record),
            2 if unused(record, 1, SIZE) => Some(Call::Tick),
            3 => send(record),
            4 if unused(record, 2, SIZE) => turn(record[1]),
            12 if unused(record, 9, SIZE) => Some(set_up(record, 1)),
            18 if unused(record, 7, SIZE) => Some(Call::Change {
                berth: u32::from(record[1]),
                parameter: u32::from(record[2]),
                value: four(record, 3),
            }),
            _ => None,
        }
    }
}

fn frame(record: &[u8; SIZE]) -> Option<Call> {
    let length = usize::from(record[4]);
    if length > MOST_DATA || !unused(record, 1, 2) || !unused(record, 5, 8) {
        return None;
    }
    if !unused(record, 8 + length, SIZE) {
        return None;
    }
    let mut data = [0; MOST_DATA];
    data[..8].copy_from_slice(&record[8..]);
    Some(Call::Frame {
        identifier: u32::from(two(record, 2)),
        data,
        length,
    })
}

fn send(record: &[u8; SIZE]) -> Option<Call> {
    let length = usize::from(two(record, 2));
    if length > LONGEST || !unused(record, 4, 8) || !unused(record, 10, SIZE) {
        return None;
    }
    Some(Call::Send {
        berth: u32::from(record[1]),
        party: u32::from(record[9]),
        length,
        first: record[8],
    })
}

/// Of the length of a turn's buffer 0 stands for 8, and 255 for an empty buffer.
fn turn(length: u8) -> Option<Call> {
    let room = match length {
        0 => 8,
        255 => 0,
        _ => usize::from(length),
    };
    if room > MOST_ROOM {
        return None;
    }
    Some(Call::Turn { room })
}

/// The settings stand from a place of the record on.
pub(crate) fn set_up(record: &[u8; SIZE], at: usize) -> Call
    requires { at < 2 }
{
    Call::SetUp {
        area: four(record, at),
        block: u32::from(two(record, at + 4)),
        stmin: u32::from(two(record, at + 6)),
    }
}

impl Scene {
    /// Makes a call, and prints its answer.
    pub(crate) fn call<W: Write>(
        &mut self,
        output: &mut W,
        number: u64,
        call: Call,
    ) -> io::Result<()> {
        match call {
            Call::Frame {
                identifier,
                data,
                length,
            } => self.frame(output, number, identifier, &data[..length.min(MOST_DATA)]),
            Call::Tick => self.tick(output, number),
            Call::Send {
                berth,
                party,
                length,
                first,
            } => {
                let mut message = [0; LONGEST];
                records::message::rise(&mut message, first);
                let message = &message[..length.min(LONGEST)];
                self.send(output, number, berth, party, message)
            }
            Call::Turn { room } => {
                let mut buffer = [0xEE; MOST_ROOM];
                self.turn(output, number, &mut buffer[..room.min(MOST_ROOM)])
            }
            Call::SetUp { area, block, stmin } => self.set_up(output, number, area, block, stmin),
            Call::Change {
                berth,
                parameter,
                value,
            } => self.change(output, number, berth, parameter, value),
        }
    }

    fn change<W: Write>(
        &mut self,
        output: &mut W,
        number: u64,
        berth: u32,
        parameter: u32,
        value: u32,
    ) -> io::Result<()> {
        let answer = carumpek::change(&mut self.node, berth, parameter, value);
        writeln!(output, "{number} {}", ChangeWords(answer))
    }

    fn frame<W: Write>(
        &mut self,
        output: &mut W,
        number: u64,
        identifier: u32,
        payload: &[u8],
    ) -> io::Result<()> {
        let (count, room) = (self.lent.cards(), self.lent.incoming());
        let (cards, incoming) = (&mut self.cards[..], &mut self.incoming[..]);
        let answer = carumpek::frame(
            &mut self.node,
            &mut cards[..count],
            &mut incoming[..room],
            identifier,
            payload,
        );
        writeln!(
            output,
            "{number} {}{}",
            FrameWords(answer),
            Parties::of_frame(answer)
        )
    }

    fn tick<W: Write>(&mut self, output: &mut W, number: u64) -> io::Result<()> {
        let count = self.lent.cards();
        let cards = &mut self.cards[..];
        let answer = carumpek::tick(&mut self.node, &mut cards[..count]);
        writeln!(
            output,
            "{number} {}{}",
            TickWords(answer),
            Parties::of_tick(answer)
        )
    }

    fn send<W: Write>(
        &mut self,
        output: &mut W,
        number: u64,
        berth: u32,
        party: u32,
        message: &[u8],
    ) -> io::Result<()> {
        let room = self.lent.outgoing();
        let outgoing = &mut self.outgoing[..];
        let answer = carumpek::send(&mut self.node, &mut outgoing[..room], berth, party, message);
        writeln!(output, "{number} {}", SendWords(answer))
    }

    /// The line goes on with the whole buffer, also where nothing was handed over.
    fn turn<W: Write>(&mut self, output: &mut W, number: u64, buffer: &mut [u8]) -> io::Result<()> {
        let (count, room) = (self.lent.cards(), self.lent.outgoing());
        let cards = &mut self.cards[..];
        let answer = carumpek::turn(
            &mut self.node,
            &mut cards[..count],
            &self.outgoing[..room],
            buffer,
        );
        let words = TurnWords { answer, buffer };
        let parties = Parties::of_turn(answer);
        writeln!(output, "{number} {words}{parties} buffer{}", Part(buffer))
    }

    /// On the node as it is.
    fn set_up<W: Write>(
        &mut self,
        output: &mut W,
        number: u64,
        area: u32,
        block: u32,
        stmin: u32,
    ) -> io::Result<()> {
        match carumpek::set_up(&mut self.node, area, block, stmin) {
            Ok(()) => writeln!(output, "{number} setup"),
            Err(refusal) => writeln!(output, "{number} refused {}", u8::from(refusal)),
        }
    }
}
