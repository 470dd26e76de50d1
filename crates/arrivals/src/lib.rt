//! A frame arrives at a berth: what it changes there, which of its bytes are kept in the berth's area, and what it did.
#![tactic(auto, unfolding(rules::specs::Arrivals::grown, rules::specs::Arrivals::after_took, rules::specs::Arrivals::awaited_came, rules::specs::Arrivals::completed, rules::specs::Arrivals::took, rules::specs::Arrivals::wrong_sn, rules::specs::Arrivals::ignored, rules::specs::Arrivals::heard_by, rules::specs::Arrivals::granted, rules::specs::Arrivals::by_status, rules::specs::Arrivals::frame_came, rules::specs::Arrivals::by_kind, rules::specs::Arrivals::told_by))]

pub mod areas;

ghost use Rattle.std.specs.Prelude.{◌≡◌, None, true, ◌≤◌, ◌<◌, length};
ghost use Rattle.std.proofs.lemmas.List.Edits.{sets};
ghost use Rattle.rules.specs.Numbers.{least_flow, single_most, first_bytes};
ghost use Rattle.rules.specs.Ranges.{AreaRange, BerthRange, TakingRange, RxRange};
ghost use Rattle.rules.specs.Arrivals.{old_code, single_came, taking, first_came, missing, piece, grown, after_took, consecutive_came, granted, by_status, flow_came, heard_by, told_by, frame_came};
ghost use Rattle.rules.specs.Frames.{consecutive_fits};
ghost use Rattle.rules.specs.Words.{code_said, word_said};
ghost use Rattle.rules.specs.declared.Settings.{Settings};
ghost use Rattle.arrivals.specs.Reading.{Answers, Leaves, told_of};

use rules::{Berth, Code, Party, Reason, Rx, Sending, Settings, Sn, Taking, Tx, Word};

/// What a frame did at a berth: the code of the reception that it ended, if any, and the word.
#[derive(Clone, Copy, Debug, PartialEq, Eq)]
pub struct Arrival {
    pub old: Option<Code>,
    pub word: Word,
}

/// A frame that is ignored ends nothing.
fn ignored(reason: Reason) -> Arrival
    ensures { result ≡ record { old = None; word = Word.Ignored reason } }
{
    Arrival {
        old: None,
        word: Word::Ignored(reason),
    }
}

/// The code with which a new message ends the reception before it, if one is under way.
fn old_code(rx: Rx) -> Option<Code>
    ensures { code_said result ≡ old_code rx }
{
    match rx {
        Rx::OwesGo(..) | Rx::Awaits(..) => Some(Code::UnexpPdu),
        Rx::Idle | Rx::OwesOverflow(_) => None,
    }
}

/// A single frame holds a whole message.
// Casts widen, or are proved to fit: `try_from` would add an error that cannot come.
#[tactic(auto, using(crate::proofs::RuleSets::single_came_steps), unfolding(rules::specs::Arrivals::single_came, rules::specs::Arrivals::ignored, rules::specs::Arrivals::heard_by))]
fn single_came(berth: &mut Berth, area: &mut [u8], frame: &[u8]) -> Arrival
    requires data { 0 < length frame.now }
    requires room { single_most ≤ length area.old }
    ensures { Leaves (heard_by berth.old (single_came berth.old.rx berth.old.last frame.now)) result berth.new area.old area.new }
{
    if !frames::single_fits(frame) {
        return ignored(Reason::WrongLength);
    }
    let length = frames::low(frame) as u32;
    areas::keep(area, 0, frame, 1, length);
    let old = old_code(berth.rx);
    berth.rx = Rx::Idle;
    berth.last = length;
    Arrival {
        old,
        word: Word::Delivered(length),
    }
}

fn taking(total: u32) -> Taking
    ensures { result ≡ taking total }
{
    Taking {
        total,
        got: rules::FIRST_BYTES,
        sn: Sn::first(),
        taken: 0,
    }
}

/// A first frame begins a message, unless it is longer than the area.
#[tactic(auto, using(crate::proofs::RuleSets::first_came_steps), unfolding(rules::specs::Arrivals::first_came, rules::specs::Arrivals::turned_away, rules::specs::Arrivals::begun, rules::specs::Arrivals::ignored, rules::specs::Arrivals::heard_by))]
fn first_came(settings: Settings, berth: &mut Berth, area: &mut [u8], frame: &[u8]) -> Arrival
    requires room { first_bytes ≤ length area.old }
    ensures { Leaves (heard_by berth.old (first_came settings berth.old.rx berth.old.last frame.now)) result berth.new area.old area.new }
{
    if !frames::first_fits(frame) {
        return ignored(Reason::WrongLength);
    }
    let old = old_code(berth.rx);
    let length = frames::announced(frame);
    if settings.area < length {
        berth.rx = Rx::OwesOverflow(0);
        return Arrival {
            old,
            word: Word::TooLong,
        };
    }
    areas::keep(area, 0, frame, 2, rules::FIRST_BYTES);
    berth.rx = Rx::OwesGo(taking(length), 0);
    berth.last = 0;
    Arrival {
        old,
        word: Word::Begun(length),
    }
}

// The rules' own word of a reception, as berth's `to_go` is of a sending.
fn missing(reception: Taking) -> u32
    requires { reception.got < reception.total }
    ensures { result ≡ missing reception }
{
    reception.total - reception.got
}

/// The bytes of the next frame go where the reception has got to: so many as are missing, and at most seven.
#[tactic(auto, using(crate::proofs::RuleSets::keep_piece_steps), unfolding(rules::specs::Arrivals::piece))]
fn keep_piece(reception: Taking, area: &mut [u8], frame: &[u8])
    requires got { reception.got < reception.total }
    requires total { reception.total ≤ length area.old }
    requires fits { consecutive_fits (missing reception) frame.now ≡ true }
    ensures { area.new ≡ sets area.old reception.got (piece reception frame.now) }
{
    let count = frames::share(missing(reception));
    areas::keep(area, reception.got, frame, 1, count);
}

fn grown(reception: Taking, taken: u8) -> Taking
    requires { reception.got < reception.total }
    ensures { result ≡ grown reception taken }
{
    Taking {
        got: frames::done_after(reception.got, reception.total),
        sn: reception.sn.next(),
        taken,
        ..reception
    }
}

/// The receive side behind a frame that is not its last: one that fills its block has go owed for it.
fn after_took(block: u8, reception: Taking) -> Rx
    requires { (s : Settings) × TakingRange s block reception }
    ensures { result ≡ after_took block reception }
{
    if frames::fills_block(block, reception.taken) {
        return Rx::OwesGo(grown(reception, 0), 0);
    }
    let taken = frames::counted(block, reception.taken);
    Rx::Awaits(grown(reception, taken), 0)
}

/// A consecutive frame holds the next bytes of a message under way.
fn consecutive_came(settings: Settings, berth: &mut Berth, area: &mut [u8], frame: &[u8]) -> Arrival
    requires data { 0 < length frame.now }
    requires range { RxRange settings berth.old.settings.block berth.old.last berth.old.rx }
    requires area { length area.old ≡ settings.area }
    ensures { Leaves (heard_by berth.old (consecutive_came berth.old.settings.block berth.old.rx berth.old.last frame.now)) result berth.new area.old area.new }
{
    let Rx::Awaits(reception, _) = berth.rx else {
        return ignored(Reason::NotAwaited);
    };
    let missing = missing(reception);
    if !frames::consecutive_fits(missing, frame) {
        return ignored(Reason::WrongLength);
    }
    if frames::low(frame) != reception.sn.0 {
        berth.rx = Rx::Idle;
        return Arrival {
            old: None,
            word: Word::Failed(Code::WrongSn, Party::scheduler()),
        };
    }
    keep_piece(reception, area, frame);
    if missing <= rules::CONSECUTIVE_MOST {
        berth.rx = Rx::Idle;
        berth.last = reception.total;
        return Arrival {
            old: None,
            word: Word::Delivered(reception.total),
        };
    }
    berth.rx = after_took(berth.settings.block, reception);
    Arrival {
        old: None,
        word: Word::Took,
    }
}

/// The peer's block size and gap are taken; nothing else of the sending moves.
fn granted(sending: Sending, frame: &[u8]) -> Sending
    requires { least_flow ≤ length frame.now }
    ensures { result ≡ granted sending frame.now }
{
    Sending {
        block: frame[1],
        sent: 0,
        gap: frames::gap_of(frame[2]),
        left: 0,
        ..sending
    }
}

/// The send side behind flow control that it awaited, and the word, by the status.
fn by_status(sending: Sending, party: Party, frame: &[u8]) -> (Tx, Word)
    requires { least_flow ≤ length frame.now }
    ensures { told_of result ≡ by_status sending party frame.now }
{
    match frames::low(frame) {
        rules::GO_STATUS => (
            Tx::Consecutive(party, granted(sending, frame), 0),
            Word::Going,
        ),
        rules::WAIT_STATUS => (Tx::AwaitsFlow(party, sending, 0), Word::Waiting),
        rules::OVERFLOW_STATUS => (Tx::Idle, Word::Failed(Code::BufferOvflw, party)),
        _ => (Tx::Idle, Word::Failed(Code::InvalidFs, party)),
    }
}

/// Flow control touches only the send side.
#[tactic(auto, using(crate::proofs::RuleSets::flow_came_steps), unfolding(rules::specs::Arrivals::flow_ignored, rules::specs::Arrivals::told_by))]
pub fn flow_came(berth: &mut Berth, frame: &[u8]) -> Arrival
    requires data { 0 < length frame.now }
    ensures { Answers (told_by berth.old (flow_came berth.old.tx frame.now)) result berth.new }
{
    let Tx::AwaitsFlow(party, sending, _) = berth.tx else {
        return ignored(Reason::NotAwaited);
    };
    if !frames::flow_fits(frame) {
        return ignored(Reason::WrongLength);
    }
    let (tx, word) = by_status(sending, party, frame);
    berth.tx = tx;
    Arrival { old: None, word }
}

/// A frame arrives at a berth in order, whose area this is.
// What a call is lent comes from several owners: a struct of references would be made for one call and taken apart in it.
pub fn frame_came(settings: Settings, berth: &mut Berth, area: &mut [u8], frame: &[u8]) -> Arrival
    requires settings { AreaRange settings.area }
    requires berth { BerthRange settings berth.old }
    requires area { length area.old ≡ settings.area }
    ensures { Leaves (frame_came settings berth.old frame.now) result berth.new area.old area.new }
{
    if frame.is_empty() {
        return ignored(Reason::NoData);
    }
    match frames::kind(frame) {
        rules::SINGLE_KIND => single_came(berth, area, frame),
        rules::FIRST_KIND => first_came(settings, berth, area, frame),
        rules::CONSECUTIVE_KIND => consecutive_came(settings, berth, area, frame),
        rules::FLOW_KIND => flow_came(berth, frame),
        _ => ignored(Reason::OtherKind),
    }
}
