//! A frame for one berth, where the node, the cards and the store lie: the berth takes it, and what it did is counted on the berth's card.
//! The call has made its tests, so this may require what they found.
#![tactic(auto)]

ghost use Rattle.std.specs.Prelude.{◌≡◌, Ok, ◌*◌, length};
ghost use Rattle.rules.specs.Numbers.{berth_count};
ghost use Rattle.rules.specs.Nodes.{berth_at, with_berth};
ghost use Rattle.rules.specs.Ranges.{AreaRange, BerthRange};
ghost use Rattle.rules.specs.Stores.{stored};
ghost use Rattle.rules.specs.Cards.{added_at, is_single, frame_adds};
ghost use Rattle.rules.specs.Answers.{heard, frame_says};
ghost use Rattle.hearing.specs.Frames.{came};

use arrivals::Arrival;
use rules::{BerthNumber, Card, Heard, Node};

/// A frame for a berth of a node in order.
// Casts widen, or are proved to fit: `try_from` would add an error that cannot come.
#[tactic(auto, using(crate::proofs::RuleSets::arrived_steps), unfolding(rules::specs::Nodes::berth_at, rules::specs::Nodes::with_berth, rules::specs::Cards::added_at, rules::specs::Cards::card_at, rules::specs::Answers::frame_says))]
pub fn arrived(
    node: &mut Node,
    cards: &mut [Card],
    berth: BerthNumber,
    incoming: &mut [u8],
    payload: &[u8],
) -> Heard
    requires settings { AreaRange node.old.settings.area }
    requires berth { BerthRange node.old.settings (berth_at node.old berth.number) }
    requires cards { length cards.old ≡ berth_count }
    requires store { length incoming.old ≡ berth_count * node.old.settings.area }
    ensures node { node.new ≡ with_berth node.old berth.number (came node.old berth.number payload.now).berth }
    ensures card { cards.new ≡ added_at cards.old berth.number (frame_adds (is_single payload.now) (came node.old berth.number payload.now).old (came node.old berth.number payload.now).word) }
    ensures store { incoming.new ≡ stored node.old.settings.area berth.number (came node.old berth.number payload.now).place (came node.old berth.number payload.now).bytes incoming.old }
    ensures answer { frame_says (Ok result) ≡ heard berth.number (came node.old berth.number payload.now).old (came node.old berth.number payload.now).word }
{
    let settings = node.settings;
    let start = berth.area_start(settings.area);
    let area = &mut incoming[start..start + settings.area as usize];
    let Arrival { old, word } = arrivals::frame_came(
        settings,
        &mut node.berths[berth.place()],
        area,
        payload,
    );
    cards::count_frame(&mut cards[berth.place()], payload, old, word);
    Heard {
        berth: berth.number,
        old,
        word,
    }
}
