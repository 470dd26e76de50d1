//! One call each, of the entry that users call, with the node and the cards lent where they lie. The sum of what came of it.
use crate::sums;
use rules::{Card, Choice, Node};

// Seven of them: each call is lent other things, and what is counted is the call and no closure around it.
pub(crate) fn set_up(mut node: Node, area: u32, stmin: u32) -> u64 {
    let answer = carumpek::set_up(&mut node, area, 8, stmin);
    sums::sum(&[sums::of_set_up(answer), sums::of_node(&node)])
}

pub(crate) fn frame(mut node: Node, incoming: &mut [u8], identifier: u32, payload: &[u8]) -> u64 {
    let mut cards = [Card::zero(); 10];
    let answer = carumpek::frame(&mut node, &mut cards, incoming, identifier, payload);
    sums::sum(&[
        sums::of_frame(answer),
        sums::of_node(&node),
        sums::of_cards(&cards),
    ])
}

pub(crate) fn tick(mut node: Node) -> u64 {
    let mut cards = [Card::zero(); 10];
    let answer = carumpek::tick(&mut node, &mut cards);
    sums::sum(&[
        sums::of_tick(answer),
        sums::of_node(&node),
        sums::of_cards(&cards),
    ])
}

/// A message of the laptop's.
pub(crate) fn send(mut node: Node, outgoing: &mut [u8], berth: u32, message: &[u8]) -> u64 {
    let answer = carumpek::send(&mut node, outgoing, berth, rules::LAPTOP, message);
    sums::sum(&[
        sums::of_berth(answer),
        sums::of_node(&node),
        sums::of_sender(&node),
    ])
}

pub(crate) fn turn(mut node: Node, outgoing: &[u8], buffer: &mut [u8]) -> u64 {
    let mut cards = [Card::zero(); 10];
    let answer = carumpek::turn(&mut node, &mut cards, outgoing, buffer);
    sums::sum(&[
        sums::of_turn(answer),
        sums::of_node(&node),
        sums::of_cards(&cards),
    ])
}

/// The berth's STmin.
pub(crate) fn change(mut node: Node, berth: u32) -> u64 {
    let answer = carumpek::change(&mut node, berth, rules::STMIN_PARAMETER, 5);
    sums::sum(&[
        sums::of_berth(answer),
        sums::of_node(&node),
        sums::of_settings(&node),
    ])
}

/// The message now being sent.
pub(crate) fn show(node: Node, incoming: &[u8], outgoing: &[u8], berth: u32) -> u64 {
    let part = carumpek::show(&node, incoming, outgoing, berth, Choice::Sending);
    sums::sum(&[part.len() as u64, sums::of_node(&node)])
}
