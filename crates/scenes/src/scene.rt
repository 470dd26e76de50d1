//! A scene: the node with all that can be lent to its calls, and how much of it is.
ghost use Rattle.std.specs.Prelude.{◌≤◌};

use rules::{Card, Node};

/// Room for ten areas of the largest size, and the most that a record lends beyond them.
const STORE: usize = 41077;

const CARDS: usize = 12;

/// So many bytes of each store, and so many cards from the first on.
#[derive(Clone, Copy)]
pub(crate) struct Lent {
    pub(crate) incoming: usize,
    pub(crate) outgoing: usize,
    pub(crate) cards: usize,
}

impl Lent {
    pub(crate) fn incoming(&self) -> usize
        ensures { result ≤ 41077 }
    {
        self.incoming.min(STORE)
    }

    pub(crate) fn outgoing(&self) -> usize
        ensures { result ≤ 41077 }
    {
        self.outgoing.min(STORE)
    }

    pub(crate) fn cards(&self) -> usize
        ensures { result ≤ 12 }
    {
        self.cards.min(CARDS)
    }
}

// A node with its stores: nothing compares or prints it, so it derives no equality.
#[derive(Clone, Copy)]
pub(crate) struct Scene {
    pub(crate) node: Node,
    pub(crate) cards: [Card; CARDS],
    pub(crate) incoming: [u8; STORE],
    pub(crate) outgoing: [u8; STORE],
    /// The header's, 0 where it was refused or bad.
    pub(crate) area: u32,
    pub(crate) lent: Lent,
}

fn empty_store() -> [u8; STORE] {
    [0; STORE]
}

impl Scene {
    /// Nothing of the stores is lent.
    pub(crate) fn new() -> Scene {
        let (incoming, outgoing) = (empty_store(), empty_store());
        Scene {
            node: Node::blank(),
            cards: [Card::zero(); CARDS],
            incoming,
            outgoing,
            area: 0,
            lent: Lent {
                incoming: 0,
                outgoing: 0,
                cards: 10,
            },
        }
    }

    /// Lends ten of the node's areas of each store, and goes by their size from now on.
    // Casts widen, or are proved to fit: `try_from` would add an error that cannot come.
    pub(crate) fn lend_areas(&mut self) {
        self.area = self.node.settings.area;
        self.lent.incoming = 10 * self.area as usize;
        self.lent.outgoing = 10 * self.area as usize;
    }
}
