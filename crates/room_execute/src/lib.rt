// Executing an action (01, "How a log is executed"): its occurrences in a chart, from left to right, and the follow-up
// of one of them, built in the room above the places in use. Follow-ups are defined in chart_spec/specs/Executing.antt;
// room_spec/proofs/Onward.antt says what a caller can rely on.
#![tactic(auto)]

ghost use Rattle.std.specs.Prelude.{◌≡◌, Result, eqb};
ghost use Rattle.chart_spec.specs.Action.{same};
ghost use Rattle.chart_spec.specs.Executing.{follows};
ghost use Rattle.room_spec.specs.Room.{chart_in, Table, Stands};
ghost use Rattle.room_spec.specs.Building.{action_of, Follows};
ghost use Rattle.room_execute.specs.Occurrences.{occurrences};

use node::Node;
use room_spec::{Action, Missing, Root};

// Whether a node of kind 1 or 2 is that action. (No `==`: a node and an action are two types, and a `From` for it would
// have to make an action of every node, of an alt too.)
fn is(node: Node, action: &Action) -> bool
    ensures { result ≡ same (action_of action.now)
        (record { line = node.a; receives = eqb node.kind 2; message = node.b }) }
{
    action.lifeline == node.a
        && action.message == node.b
        && action.receives == (node.kind == Node::RECEPTION)
}

// The occurrence at an action itself: it becomes empty.
fn on_action(
    room: &mut [u32],
    node: Node,
    action: &Action,
    k: u32,
    used: u32,
) -> Result<Root, Missing>
    requires { Table room.old used }
    ensures { Follows room.old used (occurrences node (action_of action.now)) k room.new result }
{
    if !is(node, action) {
        return Err(Missing { more: k });
    }
    if k > 0 {
        return Err(Missing { more: k - 1 });
    }
    Ok(room_places::add(room, Node::new(Node::EMPTY, 0, 0), used))
}

// Executes occurrence k of an action, counted from 0 from left to right. The answer is its follow-up, built above the
// places in use; or how many occurrences are still to be passed over.
pub fn execute(room: &mut [u32], root: Root, k: u32, action: &Action) -> Result<Root, Missing>
    requires { Stands room.old root }
    ensures { Follows room.old root.used (follows (chart_in room.old root.place) (action_of action.now)) k
        room.new result }
{
    let node = room_places::read(room, root.place);
    match node.kind {
        Node::EMISSION..=Node::RECEPTION => on_action(room, node, action, k, root.used),
        Node::STRICT..=Node::ALT => match execute(room, room_places::at(root, node.a), k, action) {
            Ok(x) => Ok(room_pairs::on_left(room, node, x)),
            Err(missing) => {
                let right = execute(room, room_places::at(root, node.b), missing.more, action);
                room_pairs::on_right(room, node, action.lifeline, missing.more, right)
            }
        },
        Node::STRICT_LOOP..=Node::PAR_LOOP => {
            let x = execute(room, room_places::at(root, node.a), k, action)?;
            Ok(room_loops::after_round(room, root.place, action.lifeline, x))
        }
        _ => Err(Missing { more: k }),
    }
}
