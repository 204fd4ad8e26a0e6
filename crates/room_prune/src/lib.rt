// Pruning (01, "How a log is executed"), defined in chart_spec/specs/Executing.antt, by recursion down the room: the
// place number falls at each call.
#![tactic(auto)]

ghost use Rattle.std.specs.Prelude.{◌≡◌, Option};
ghost use Rattle.room_spec.specs.Room.{chart_in, Table, Stands};
ghost use Rattle.room_spec.specs.Building.{Prunes};
ghost use Rattle.room_prune.specs.Sides.{above, pair_of, pair_in, loop_of, loop_in};

use node::Node;
use room_spec::Root;

// What is left of a pair whose pruned left side is `left`, given what is left of its right side: an alt keeps both
// sides or only the left one; of any other pair both are left, or nothing. (Kinds are numbers: see `Node`.)
fn pair_of(room: &mut [u32], kind: u32, left: Root, right: Option<Root>) -> Option<Root>
    requires { Table room.old (above right 0) }
    ensures { result ≡ pair_of room.old kind left right
        × room.new ≡ pair_in room.old kind left right }
{
    match right {
        Some(part) => {
            let both = Node::new(kind, left.place, part.place);
            Some(room_places::add(room, both, part.used))
        }
        None if kind == Node::ALT => Some(left),
        None => None,
    }
}

// What is left of a loop of that kind, given what is left of its body: a loop of that, or an empty. (Kinds are numbers:
// see `Node`.)
pub fn loop_of(room: &mut [u32], kind: u32, body: Option<Root>, used: u32) -> Root
    requires { Table room.old (above body used) }
    ensures { result ≡ loop_of room.old body used × room.new ≡ loop_in room.old kind body used }
{
    match body {
        Some(part) => room_places::add(room, Node::new(kind, part.place, 0), part.used),
        None => room_places::add(room, Node::new(Node::EMPTY, 0, 0), used),
    }
}

// Prunes a part by a lifeline and puts its new nodes above the places in use; nothing is left if it does not evade the
// lifeline.
pub fn prune(room: &mut [u32], root: Root, lifeline: u32) -> Option<Root>
    requires { Stands room.old root }
    ensures { Prunes room.old root.used (chart_in room.old root.place) lifeline room.new result }
{
    let node = room_places::read(room, root.place);
    match node.kind {
        Node::EMISSION..=Node::RECEPTION if node.a == lifeline => None,
        Node::STRICT..=Node::ALT => match prune(room, room_places::at(root, node.a), lifeline) {
            Some(left) => {
                let right = prune(room, room_places::at(left, node.b), lifeline);
                pair_of(room, node.kind, left, right)
            }
            None if node.kind == Node::ALT => prune(room, room_places::at(root, node.b), lifeline),
            None => None,
        },
        Node::STRICT_LOOP..=Node::PAR_LOOP => {
            let body = prune(room, room_places::at(root, node.a), lifeline);
            Some(loop_of(room, node.kind, body, root.used))
        }
        _ => Some(root),
    }
}
