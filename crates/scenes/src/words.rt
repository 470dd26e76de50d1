//! The scenes' own words: bytes, a berth's state, and the node's own.
// Types that are made to be written at once: nothing compares them, so they derive no equality.
use rules::{Berth, Rx, Sending, Settings, Taking, Tx};
use std::fmt;
use text::hex::Hex;

/// Bytes behind a space, and nothing where there are none.
#[derive(Clone, Copy)]
pub(crate) struct Part<'a>(pub(crate) &'a [u8]);

impl fmt::Display for Part<'_> {
    fn fmt<W: fmt::Write>(&self, f: &mut fmt::Formatter<W>) -> fmt::Result {
        if self.0.is_empty() {
            return Ok(());
        }
        write!(f, " {}", Hex(self.0))
    }
}

#[derive(Clone, Copy)]
struct Received(Taking);

impl fmt::Display for Received {
    fn fmt<W: fmt::Write>(&self, f: &mut fmt::Formatter<W>) -> fmt::Result {
        let Taking {
            total,
            got,
            sn,
            taken,
        } = self.0;
        write!(f, "{total} {got} {} {taken}", sn.0)
    }
}

#[derive(Clone, Copy)]
struct Sent(Sending);

impl fmt::Display for Sent {
    fn fmt<W: fmt::Write>(&self, f: &mut fmt::Formatter<W>) -> fmt::Result {
        let Sending {
            length,
            position,
            sn,
            block,
            sent,
            gap,
            left,
        } = self.0;
        write!(
            f,
            "{length} {position} {} {block} {sent} {gap} {left}",
            sn.0
        )
    }
}

/// The number of the state, and the fields that it carries.
#[derive(Clone, Copy)]
struct ReceiveSide(Rx);

impl fmt::Display for ReceiveSide {
    fn fmt<W: fmt::Write>(&self, f: &mut fmt::Formatter<W>) -> fmt::Result {
        match self.0 {
            Rx::Idle => f.write_str("0"),
            Rx::OwesOverflow(timer) => write!(f, "1 {timer}"),
            Rx::OwesGo(taking, timer) => write!(f, "2 {} {timer}", Received(taking)),
            Rx::Awaits(taking, timer) => write!(f, "3 {} {timer}", Received(taking)),
        }
    }
}

/// The number of the state, and the fields that it carries.
#[derive(Clone, Copy)]
struct SendSide(Tx);

impl fmt::Display for SendSide {
    fn fmt<W: fmt::Write>(&self, f: &mut fmt::Formatter<W>) -> fmt::Result {
        match self.0 {
            Tx::Idle => f.write_str("0"),
            Tx::SingleDue(party, length, timer) => write!(f, "1 {length} {timer} {}", party.0),
            Tx::FirstDue(party, length, timer) => write!(f, "2 {length} {timer} {}", party.0),
            Tx::AwaitsFlow(party, sending, timer) => {
                write!(f, "3 {} {timer} {}", Sent(sending), party.0)
            }
            Tx::Consecutive(party, sending, timer) => {
                write!(f, "4 {} {timer} {}", Sent(sending), party.0)
            }
        }
    }
}

/// A berth's block size and STmin, its two sides, and between them the length of the last message arrived.
#[derive(Clone, Copy)]
pub(crate) struct State(pub(crate) Berth);

impl fmt::Display for State {
    fn fmt<W: fmt::Write>(&self, f: &mut fmt::Formatter<W>) -> fmt::Result {
        let Berth {
            rx,
            last,
            tx,
            settings,
        } = self.0;
        write!(f, "state set {} {}", settings.block, settings.stmin)?;
        write!(f, " rx {} last {last} tx {}", ReceiveSide(rx), SendSide(tx))
    }
}

/// The area size and the berth served last.
#[derive(Clone, Copy)]
pub(crate) struct NodeState {
    pub(crate) settings: Settings,
    pub(crate) served: u8,
}

impl fmt::Display for NodeState {
    fn fmt<W: fmt::Write>(&self, f: &mut fmt::Formatter<W>) -> fmt::Result {
        write!(f, "node {} {}", self.settings.area, self.served)
    }
}
