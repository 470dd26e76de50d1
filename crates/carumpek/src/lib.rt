//! The calls that users make: the node struct and the cards, kept in one place, are lent by `&mut` to a few entries, and each works where
//! they lie. An entry makes its tests (crate node), and what it refuses it has not touched; then it lends node and cards on: for a frame
//! to crate hearing, for a turn to crate handing, for a tick to crate berths. Each promise is over node and cards at entry and at exit.
#![tactic(auto)]

ghost use Rattle.std.specs.Prelude.{◌≡◌, true};
ghost use Rattle.rules.specs.Ranges.{own_allowed};
ghost use Rattle.node.specs.Promises.{SetUpPromise, FramePromise, TickPromise, SendPromise, TurnPromise, ShowPromise, ChangePromise, NeededPromise};

use rules::{
    Berth, BerthSettings, Card, Choice, Codes, Heard, Node, Party, Refusal, Settings, Turn,
};

/// Fills the lent node whatever it held before: the area size for all berths, and each berth's own block size and STmin.
pub fn set_up(node: &mut Node, area: u32, block: u32, stmin: u32) -> Result<(), Refusal>
    ensures { SetUpPromise node.old area block stmin result node.new }
{
    if !berth::ranges::settings_allowed(area, block, stmin) {
        return Err(Refusal::BadSetting);
    }
    node.settings = Settings { area };
    node.served = rules::BERTH_COUNT - 1;
    node.berths = [Berth::fresh_with(own_of(block, stmin)); 10];
    Ok(())
}

/// A berth's own settings that are allowed fit their bytes.
// Casts widen, or are proved to fit: `try_from` would add an error that cannot come.
#[tactic(auto, unfolding(rules::specs::Tests::all))]
fn own_of(block: u32, stmin: u32) -> BerthSettings
    requires { own_allowed block stmin ≡ true }
    ensures { result ≡ record { block = block; stmin = stmin } }
{
    BerthSettings {
        block: block as u8,
        stmin: stmin as u8,
    }
}

/// A frame came in on an identifier.
pub fn frame(
    node: &mut Node,
    cards: &mut [Card],
    incoming: &mut [u8],
    identifier: u32,
    payload: &[u8],
) -> Result<Heard, Refusal>
    ensures { FramePromise node.old cards.old incoming.old identifier payload.now result node.new cards.new incoming.new }
{
    let berth = node::refusals::frame(&*node, &*cards, &*incoming, identifier, payload)?;
    Ok(hearing::arrived(node, cards, berth, incoming, payload))
}

/// A tick of 1 ms: what each berth's two sides report.
pub fn tick(node: &mut Node, cards: &mut [Card]) -> Result<[Codes; 10], Refusal>
    ensures { TickPromise node.old cards.old result node.new cards.new }
{
    let idle = node::refusals::tick(&*node, &*cards)?;
    Ok(berths::tick(node, cards, idle))
}

/// Begins to send a message, the scheduler's or the laptop's. The answer is the berth.
pub fn send(
    node: &mut Node,
    outgoing: &mut [u8],
    berth: u32,
    party: u32,
    message: &[u8],
) -> Result<u8, Refusal>
    ensures { SendPromise node.old outgoing.old berth party message.now result node.new outgoing.new }
{
    let berth = node::refusals::send(&*node, &*outgoing, berth, party, message)?;
    let at = berth.place();
    let start = berth.area_start(node.settings.area);
    outgoing[start..start + message.len()].copy_from_slice(message);
    node.berths[at].tx = berth::turns::begins_with(message.len() as u32, Party(party as u8));
    Ok(berth.number)
}

/// A call for a frame: the controller is free. The frame is put down in the first eight bytes of the buffer.
pub fn turn(
    node: &mut Node,
    cards: &mut [Card],
    outgoing: &[u8],
    buffer: &mut [u8],
) -> Result<Turn, Refusal>
    ensures { TurnPromise node.old cards.old outgoing.now buffer.old result node.new cards.new buffer.new }
{
    let idle = node::refusals::turn(&*node, &*cards, outgoing, &*buffer)?;
    Ok(handing::turn(node, cards, idle, outgoing, buffer))
}

/// The last message arrived at a berth, or the one that it is sending: the part of the chosen store, empty if there is none.
pub fn show<'a>(
    node: &Node,
    incoming: &'a [u8],
    outgoing: &'a [u8],
    berth: u32,
    choice: Choice,
) -> &'a [u8]
    ensures { ShowPromise node.now incoming.now outgoing.now berth choice result.now incoming.entry.ref_ptr outgoing.entry.ref_ptr result.ref_ptr }
{
    sides::shown(node, incoming, outgoing, berth, choice)
}

/// Changes one setting of a berth: its STmin or its block size. The answer is the berth.
pub fn change(node: &mut Node, berth: u32, parameter: u32, value: u32) -> Result<u8, Refusal>
    ensures { ChangePromise node.old berth parameter value result node.new }
{
    let berth = node::refusals::change(&*node, berth, parameter, value)?;
    let at = berth.place();
    node.berths[at].settings = berth::changes::changed_settings(
        node.berths[at].settings,
        parameter,
        value,
    );
    Ok(berth.number)
}

/// How many frames a message of a length needs, 0 where no node can send it.
pub fn frames_needed(length: u64) -> u64
    ensures { NeededPromise length result }
{
    frames::frames_needed(length)
}
