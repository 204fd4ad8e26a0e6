// A node of a chart (01, "The chart card"): the constants for kinds and limits, and a node packed into one place of the
// room (01, "How a log is executed"). Packing is defined in specs/Place.antt; the crate `node_spec` says what kinds and
// rows of nodes stand for.
#![tactic(auto)]

ghost use Rattle.std.specs.Prelude.{◌≡◌};
ghost use Rattle.node.specs.Place.{word_of, node_of};

// The kind, and two numbers whose meaning depends on the kind: lifeline and message, or the numbers of the children.
// The kind is a number and no enum: 01 ("The shape of each place") asks for constants, and for one decision over the
// kind number, with ranges.
#[derive(Clone, Copy)]
pub struct Node {
    pub kind: u32,
    pub a: u32,
    pub b: u32,
}

impl Node {
    // Kinds.
    pub const EMPTY: u32 = 0;

    pub const EMISSION: u32 = 1;

    pub const RECEPTION: u32 = 2;

    pub const STRICT: u32 = 3;

    pub const SEQ: u32 = 4;

    pub const PAR: u32 = 5;

    pub const ALT: u32 = 6;

    pub const STRICT_LOOP: u32 = 7;

    pub const HEAD_LOOP: u32 = 8;

    pub const WEAK_LOOP: u32 = 9;

    pub const PAR_LOOP: u32 = 10;

    // Limits.
    pub const LIFELINES: u32 = 16;

    pub const MESSAGES: u32 = 64;

    pub const DEPTH: u32 = 16;

    // The most nodes of a card; the bytes of a node and of the trailer; the most bytes of a card.
    pub const NODES: usize = 255;

    pub const NODE_BYTES: usize = 4;

    pub const TRAILER_BYTES: usize = 6;

    pub const CARD_BYTES: usize = 4096;

    // The most places of a room that are usable.
    pub const PLACES: usize = 16384;

    // A place is one number: the kind in the top 4 bits, below it a and b in 14 bits each. A number that is too wide
    // loses its high bits.
    const KIND_MASK: u32 = 0xF;

    const KIND_SHIFT: u32 = 28;

    const NUMBER_MASK: u32 = 0x3FFF;

    const NUMBER_BITS: u32 = 14;

    // A node of that kind with these two numbers.
    pub fn new(kind: u32, a: u32, b: u32) -> Node
        ensures { result ≡ record { kind = kind; a = a; b = b } }
    {
        Node { kind, a, b }
    }

    // The node as one place. (Two functions and no `From`: 01 asks for "functions that pack and unpack a place".)
    pub fn pack(self) -> u32
        ensures { result ≡ word_of self }
    {
        let kind = self.kind & Node::KIND_MASK;
        let upper = (kind << Node::NUMBER_BITS) | (self.a & Node::NUMBER_MASK);
        (upper << Node::NUMBER_BITS) | (self.b & Node::NUMBER_MASK)
    }

    // The node that a place holds.
    pub fn unpack(word: u32) -> Node
        ensures { result ≡ node_of word }
    {
        Node {
            kind: word >> Node::KIND_SHIFT,
            a: (word >> Node::NUMBER_BITS) & Node::NUMBER_MASK,
            b: word & Node::NUMBER_MASK,
        }
    }
}
