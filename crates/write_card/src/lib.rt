// A chart in a room, written down as a card (01, "Verdicts and numbers given": "A cut writes a card without a note, the
// same counts, nodes with left part before right part before parent"). The bytes are defined in
// write_spec/specs/Cards.antt.
#![tactic(auto)]

ghost use Rattle.std.specs.Prelude.{◌≡◌, ◌++◌, ◌+◌, ◌<◌, ◌≤◌, length, drop, set};
ghost use Rattle.std.proofs.lemmas.List.Edits.{sets};
ghost use Rattle.chart_spec.specs.Chart.{size};
ghost use Rattle.room_spec.specs.Room.{chart_in, Rooted};
ghost use Rattle.write_spec.specs.Cards.{trailer_of, card_bytes, card_of, Holds};
ghost use Rattle.write_card.specs.Outputs.{Storable, Stores, Writable, Writes};

use card_spec::Counts;
use node::Node;

// How many nodes a part has.
fn count(room: &[u32], place: u32) -> u32
    requires { Rooted room.now place × size (chart_in room.now place) ≤ 255 }
    ensures { result ≡ size (chart_in room.now place) }
{
    let node = room_places::read(room, place);
    match node.kind {
        Node::STRICT..=Node::ALT => count(room, node.a) + count(room, node.b) + 1,
        Node::STRICT_LOOP..=Node::PAR_LOOP => count(room, node.a) + 1,
        _ => 1,
    }
}

// How many bytes the card of a part has.
pub fn card_bytes(room: &[u32], place: u32) -> usize
    requires { Rooted room.now place × size (chart_in room.now place) ≤ 255 }
    ensures { result ≡ card_bytes (chart_in room.now place) }
{
    count(room, place) as usize * Node::NODE_BYTES + Node::TRAILER_BYTES
}

fn store(out: &mut [u8], at: usize, byte: u8)
    requires { at < length out.old }
    ensures { out.new ≡ set out.old at byte }
{
    out[at] = byte;
}

// Stores the record of the node with that number, and returns the next node's number.
fn put(out: &mut [u8], number: u32, node: Node) -> u32
    requires { Storable node number out.old }
    ensures { Stores node number out.old result out.new }
{
    let at = number as usize * Node::NODE_BYTES;
    store(out, at, node.kind as u8);
    store(out, at + 1, node.a as u8);
    store(out, at + 2, node.b as u8);
    store(out, at + 3, 0);
    number + 1
}

// Stores the records of a part's nodes, left part before right part before parent, numbered from `first` on, and
// returns the next node's number. (That number goes beside the output, since it is also what a parent calls its child.)
fn write(room: &[u32], place: u32, out: &mut [u8], first: u32) -> u32
    requires { Rooted room.now place × Writable (chart_in room.now place) first out.old }
    ensures { Writes (chart_in room.now place) first out.old result out.new }
{
    let node = room_places::read(room, place);
    match node.kind {
        Node::EMISSION..=Node::RECEPTION => put(out, first, node),
        Node::STRICT..=Node::ALT => {
            let right = write(room, node.a, out, first);
            let parent = write(room, node.b, out, right);
            put(out, parent, Node::new(node.kind, right - 1, parent - 1))
        }
        Node::STRICT_LOOP..=Node::PAR_LOOP => {
            let parent = write(room, node.a, out, first);
            put(out, parent, Node::new(node.kind, parent - 1, 0))
        }
        _ => put(out, first, Node::new(Node::EMPTY, 0, 0)),
    }
}

// Stores the trailer after nodes that take `back` bytes. (No `to_le_bytes`: `store` takes one byte, so its two would be
// named and then stored, which is no plainer.)
fn put_trailer(out: &mut [u8], back: usize, counts: Counts)
    requires { back + 6 ≤ length out.old × back < 65536 × counts.lifelines < 256 × counts.messages < 256 }
    ensures { out.new ≡ sets out.old back (trailer_of back counts.lifelines counts.messages) }
{
    store(out, back, (back % 256) as u8);
    store(out, back + 1, (back / 256) as u8);
    store(out, back + 2, counts.lifelines as u8);
    store(out, back + 3, counts.messages as u8);
    store(out, back + 4, 0x57);
    store(out, back + 5, 0x4C);
}

// Writes the card of a part, with these counts, to the first bytes of an output that is long enough.
pub fn write_card(room: &[u32], place: u32, counts: Counts, out: &mut [u8])
    requires { Rooted room.now place × Holds counts.lifelines counts.messages (chart_in room.now place)
        × card_bytes (chart_in room.now place) ≤ length out.old }
    ensures { out.new ≡ card_of counts.lifelines counts.messages (chart_in room.now place)
        ++ drop (card_bytes (chart_in room.now place)) out.old }
{
    let nodes = write(room, place, out, 0);
    put_trailer(out, nodes as usize * Node::NODE_BYTES, counts);
}
