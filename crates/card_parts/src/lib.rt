// The parts of a card: the note, the nodes and a trailer of six bytes; and one node out of the bytes of the nodes (01,
// "The chart card"). They are defined in card_spec/specs/Parts.antt and Nodes.antt, also for bytes that are no card;
// `card_check` finds out whether the bytes are a card.
#![tactic(auto)]

ghost use Rattle.std.specs.Prelude.{◌≡◌, ◌<◌};
ghost use Rattle.card_spec.specs.Parts.{trailer_byte, back_of, lifelines_of, messages_of, trailer_at, first_at, nodes_of};
ghost use Rattle.card_spec.specs.Nodes.{count_of, node_at, spare_at};

use card_spec::Counts;
use node::Node;

// Byte k of the trailer; 0 if the card is shorter than a trailer.
pub fn trailer(card: &[u8], k: usize) -> u32
    requires { k < 6 }
    ensures { result ≡ trailer_byte card.now k }
{
    let size = card.len();
    if size < Node::TRAILER_BYTES {
        return 0;
    }
    u32::from(card[size - Node::TRAILER_BYTES + k])
}

// The back distance, low byte first: how many bytes the nodes take. (No `from_le_bytes`: `trailer` gives numbers, since
// a byte that a short card lacks counts as 0; to make bytes of them first is no plainer.)
pub fn back(card: &[u8]) -> usize
    ensures { result ≡ back_of card.now }
{
    let low = trailer(card, 0) as usize;
    let high = trailer(card, 1) as usize;
    low + 256 * high
}

// How many lifelines and messages are declared.
pub fn counts(card: &[u8]) -> Counts
    ensures lifelines { result.lifelines ≡ lifelines_of card.now }
    ensures messages { result.messages ≡ messages_of card.now }
{
    Counts {
        lifelines: trailer(card, 2),
        messages: trailer(card, 3),
    }
}

// Where the trailer begins.
pub fn trailer_at(card: &[u8]) -> usize
    ensures { result ≡ trailer_at card.now }
{
    card.len().saturating_sub(Node::TRAILER_BYTES)
}

// Where the first node begins, which is where the note ends.
pub fn first_at(card: &[u8]) -> usize
    ensures { result ≡ first_at card.now }
{
    trailer_at(card).saturating_sub(back(card))
}

// The bytes of the nodes.
pub fn nodes(card: &[u8]) -> &[u8]
    ensures { result.now ≡ nodes_of card.now }
{
    let first = first_at(card);
    let end = trailer_at(card);
    &card[first..end]
}

// How many nodes there are.
pub fn count(nodes: &[u8]) -> usize
    ensures { result ≡ count_of nodes.now }
{
    nodes.len() / Node::NODE_BYTES
}

// Node i. (The bound of an index is a clause: a type for it would be made anew at each turn of a loop.)
pub fn node_at(nodes: &[u8], i: usize) -> Node
    requires { i < count_of nodes.now }
    ensures { result ≡ node_at nodes.now i }
{
    let at = i * Node::NODE_BYTES;
    Node {
        kind: u32::from(nodes[at]),
        a: u32::from(nodes[at + 1]),
        b: u32::from(nodes[at + 2]),
    }
}

// The fourth byte of node i, c, which no kind uses.
pub fn spare_at(nodes: &[u8], i: usize) -> u32
    requires { i < count_of nodes.now }
    ensures { result ≡ spare_at nodes.now i }
{
    u32::from(nodes[i * Node::NODE_BYTES + 3])
}
