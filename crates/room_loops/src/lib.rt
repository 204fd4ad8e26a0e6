// What becomes of a loop when an action is executed in its body (01, "How a log is executed"): the round that was
// begun, and the loop after it. This is `after_round` of chart_spec/specs/Executing.antt.
#![tactic(auto)]

ghost use Rattle.std.specs.Prelude.{◌≡◌, ◌<◌};
ghost use Rattle.chart_spec.specs.Chart.{Loop};
ghost use Rattle.chart_spec.specs.Executing.{after_round};
ghost use Rattle.node_spec.specs.Kind.{kind_of};
ghost use Rattle.node_spec.specs.Kind.Kind.{loops};
ghost use Rattle.room_spec.specs.Room.{node_in, chart_in, Rooted};
ghost use Rattle.room_spec.specs.Building.{Held};
ghost use Rattle.room_spec.specs.Passing.{Carries};
ghost use Rattle.room_loops.specs.Orders.{order_between};

use node::Node;
use room_spec::Root;

// The order in which the rounds of a loop follow each other, as the kind of a pair. (Kinds are numbers: see `Node`.)
fn between_rounds(kind: u32) -> u32
    ensures { result ≡ order_between kind }
{
    match kind {
        Node::STRICT_LOOP => Node::STRICT,
        Node::PAR_LOOP => Node::PAR,
        _ => Node::SEQ,
    }
}

// The loop at this place, when its body becomes x: the round that was begun, and then the loop. For a weak loop, the
// pruned loop comes before both.
pub fn after_round(room: &mut [u32], place: u32, lifeline: u32, x: Root) -> Root
    requires { Held room.old x × Rooted room.old place × place < x.used }
    ensures { (l : Loop) → kind_of (node_in room.old place).kind ≡ loops l
        → Carries room.old x
        (after_round l (chart_in room.old (node_in room.old place).a) lifeline)
        room.new result }
{
    let node = room_places::read(room, place);
    let round = Node::new(between_rounds(node.kind), x.place, place);
    let begun = room_places::add(room, round, x.used);
    if node.kind != Node::WEAK_LOOP {
        return begun;
    }
    let body = room_prune::prune(room, room_places::at(begun, node.a), lifeline);
    let front = room_prune::loop_of(room, node.kind, body, begun.used);
    let whole = Node::new(Node::SEQ, front.place, begun.place);
    room_places::add(room, whole, front.used)
}
