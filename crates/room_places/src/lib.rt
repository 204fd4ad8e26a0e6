// Reading, writing and clearing the places of a room. Only these functions touch a room's numbers. How a node stands in
// a place is defined in node/specs/Place.antt. Also what a part's root says: the root of a part of it, and whether it
// exceeds the room.
#![tactic(auto)]

ghost use Rattle.std.specs.Prelude.{◌≡◌, ◌<◌, length, ltb, replicate};
ghost use Rattle.room_spec.specs.Room.{node_in, Table};
ghost use Rattle.room_spec.specs.Building.{added, root_at};

use node::Node;
use room_spec::Root;

// The node at a place.
pub fn read(room: &[u32], place: u32) -> Node
    requires { place < length room.now }
    ensures { result ≡ node_in room.now place }
{
    let at = place as usize;
    Node::unpack(room[at])
}

// Adds a node in the first place that is not in use. A full room stays as it is, and is counted as exceeded.
pub fn add(room: &mut [u32], node: Node, used: u32) -> Root
    requires { Table room.old used }
    ensures { result ≡ root_at room.old used × room.new ≡ added room.old used node }
{
    let at = used as usize;
    if at < room.len() {
        room[at] = node.pack();
        return Root {
            place: used,
            used: used + 1,
        };
    }
    Root {
        place: used,
        used: room.len() as u32 + 1,
    }
}

// The part at this place, among the same places in use. (This and `exceeds` are no methods: `Root` is a type of a crate
// `.._spec`, and these have no function.)
pub fn at(root: Root, place: u32) -> Root
    ensures { result ≡ record { place = place; used = root.used } }
{
    Root {
        place,
        used: root.used,
    }
}

// Whether a part exceeds the room.
pub fn exceeds(root: Root, room: &[u32]) -> bool
    ensures { result ≡ ltb (length room.now) root.used }
{
    room.len() < root.used as usize
}

// Sets every number to zero.
pub fn clear(room: &mut [u32])
    ensures { room.new ≡ replicate (length room.old) 0 }
{
    room.fill(0);
}
