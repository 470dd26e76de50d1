//! What is asked for: a call in a situation, the area, the length of each message under way and of the one that is sent, and how many
//! berths are busy.

#[derive(Clone, Copy, Debug, PartialEq, Eq)]
pub(crate) enum Call {
    SetUp,
    Frame,
    Tick,
    Send,
    Turn,
    Show,
    Change,
}

// What the program is asked for, and no switch of a step: a call is counted in a situation.
#[derive(Clone, Copy, Debug, PartialEq, Eq)]
pub(crate) enum Situation {
    Idle,
    Busy,
    Refused,
}

#[derive(Clone, Copy, Debug, PartialEq, Eq)]
pub(crate) struct Asked {
    pub call: Call,
    pub situation: Situation,
    pub area: u32,
    pub length: u32,
    pub busy: usize,
}
