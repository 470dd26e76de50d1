//! A turn, where the node and the cards lie: the next berth that is due hands its frame over. The call has made its tests (crate node), so
//! this may require what they found.
#![tactic(auto)]

ghost use Rattle.std.specs.Prelude.{◌≡◌, ◌≤◌, ◌<◌, ◌+◌, ◌*◌, ◌++◌, Ok, List, ℕ, length, take, drop};
ghost use Rattle.rules.specs.Numbers.{berth_count, to_berth, frame_size, least_buffer};
ghost use Rattle.rules.specs.Nodes.{berth_at};
ghost use Rattle.rules.specs.Turns.{hand_over};
ghost use Rattle.rules.specs.Stores.{served_node};
ghost use Rattle.rules.specs.Cards.{added_at, turn_adds};
ghost use Rattle.rules.specs.Words.{reported_code, reported_party};
ghost use Rattle.rules.specs.Answers.{turn_says, handed};
ghost use Rattle.rules.specs.Events.{turn};
ghost use Rattle.rules.specs.Refusals.{refusal};
ghost use Rattle.looks.specs.Order.{leading_idle};
ghost use Rattle.node.specs.Promises.{lent, TurnPromise};
ghost use Rattle.handing.specs.Turns.{AreaInRange, Due, handed_by};

use rules::{Berth, BerthNumber, Card, Node, Report, Settings, Turn};

/// A call for a frame that is not refused, of a node whose first berths, so many, are idle.
pub fn turn(
    node: &mut Node,
    cards: &mut [Card],
    idle: usize,
    outgoing: &[u8],
    buffer: &mut [u8],
) -> Turn
    requires may { (incoming : List ℕ) → 0 ≡ refusal (lent node.old cards.old incoming outgoing.now) (turn buffer.old) }
    requires idle { idle ≡ leading_idle node.old.berths }
    ensures { TurnPromise node.old cards.old outgoing.now buffer.old (Ok result) node.new cards.new buffer.new }
{
    let Some(passed) = looks::passed_over(node, idle) else {
        return Turn::None(rules::BERTH_COUNT);
    };
    let berth = looks::probe(node.served, passed);
    hand_over(node, cards, berth, passed, outgoing, buffer)
}

/// The berth that is passed to after so many hands its frame over.
// Casts widen, or are proved to fit: `try_from` would add an error that cannot come.
#[tactic(auto, unfolding(rules::specs::Nodes::berth_at, rules::specs::Stores::served_node, rules::specs::Stores::area_of, rules::specs::Answers::turn_says))]
fn hand_over(
    node: &mut Node,
    cards: &mut [Card],
    berth: BerthNumber,
    passed: u8,
    outgoing: &[u8],
    buffer: &mut [u8],
) -> Turn
    requires due { Due node.old.settings (berth_at node.old berth.number) }
    requires settings { AreaInRange node.old.settings }
    requires cards { length cards.old ≡ berth_count }
    requires store { length outgoing.now ≡ berth_count * node.old.settings.area }
    requires room { least_buffer ≤ length buffer.old }
    ensures node { node.new ≡ served_node node.old berth.number (handed_by node.old berth.number outgoing.now).berth }
    ensures cards { cards.new ≡ added_at cards.old berth.number (turn_adds (handed_by node.old berth.number outgoing.now).code) }
    ensures eight { length (handed_by node.old berth.number outgoing.now).frame ≡ frame_size }
    ensures buffer { buffer.new ≡ (handed_by node.old berth.number outgoing.now).frame ++ drop frame_size buffer.old }
    ensures answer { turn_says (Ok result) buffer.new ≡ handed (to_berth + berth.number) (take frame_size buffer.new) (handed_by node.old berth.number outgoing.now).code passed (handed_by node.old berth.number outgoing.now).party }
{
    let settings = node.settings;
    let at = berth.place();
    let start = berth.area_start(settings.area);
    let area = &outgoing[start..start + settings.area as usize];
    let report = frame_of(&mut node.berths[at], settings, area, &mut buffer[..8]);
    node.served = berth.number;
    count(cards, at, report);
    Turn::HandedOver {
        identifier: rules::TO_BERTH + berth.number as u32,
        report,
        passed,
    }
}

/// A berth that is due puts its frame down: flow control that is owed goes before a frame of a message. The answer is what it reports.
// What a call is lent comes from several owners: a struct of references would be made for one call and taken apart in it.
#[tactic(auto, unfolding(rules::specs::Turns::hand_over, rules::specs::Turns::due))]
fn frame_of(berth: &mut Berth, settings: Settings, area: &[u8], frame: &mut [u8]) -> Option<Report>
    requires due { Due settings berth.old }
    requires settings { AreaInRange settings }
    requires area { length area.now ≡ settings.area }
    requires frame { length frame.old ≡ frame_size }
    ensures { hand_over berth.old area.now ≡ record { berth = berth.new; frame = frame.new; code = reported_code result; party = reported_party result } }
{
    if berth::turns::flow_due(berth.rx) {
        berth::turns::flow_frame(berth.settings, berth.rx, frame);
        berth.rx = berth::turns::after_flow(berth.rx);
        return None;
    }
    let report = berth::turns::message_report(settings, berth.tx);
    berth::turns::message_frame(settings, berth.tx, area, frame);
    berth.tx = berth::turns::after_message(settings, berth.tx);
    report
}

/// Counts a message that is sent. Most turns report nothing, and then no card is touched.
#[tactic(auto, using(crate::proofs::RuleSets::no_code), unfolding(rules::specs::Cards::added_at, rules::specs::Cards::card_at))]
fn count(cards: &mut [Card], at: usize, report: Option<Report>)
    requires { at < length cards.old }
    ensures { cards.new ≡ added_at cards.old at (turn_adds (reported_code report)) }
{
    if report.is_some() {
        cards[at] = cards::added(cards[at], cards::of_report(report));
    }
}
