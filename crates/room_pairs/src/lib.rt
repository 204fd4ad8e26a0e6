// What becomes of a pair when an action is executed in one of its sides (01, "How a log is executed"): one function for
// each rule of chart_spec/specs/Executing.antt. `room_execute` puts the rules together.
#![tactic(auto)]

ghost use Rattle.std.specs.Prelude.{◌≡◌, ℕ, ◌<◌, Result};
ghost use Rattle.chart_spec.specs.Chart.Order.{strict, seq, par};
ghost use Rattle.chart_spec.specs.Executing.{on_right};
ghost use Rattle.node_spec.specs.Kind.{Pair, kind_of};
ghost use Rattle.node_spec.specs.Kind.Kind.{pairs};
ghost use Rattle.room_spec.specs.Room.{chart_in, Table, Rooted};
ghost use Rattle.room_spec.specs.Passing.{Carries, Turns, Beside};
ghost use Rattle.room_pairs.specs.Beside.{beside_right, beside_left, none_of};

use node::Node;
use room_spec::{Missing, Root};

// The left side of a pair becomes x. In an alt only x remains; in any other pair x replaces the left side.
pub fn on_left(room: &mut [u32], node: Node, x: Root) -> Root
    requires { Table room.old x.used × node.b < x.used }
    ensures { (q : Pair) → kind_of node.kind ≡ pairs q
        → Carries room.old x (beside_right q (chart_in room.old node.b))
        room.new result }
{
    if node.kind == Node::ALT {
        return x;
    }
    room_places::add(room, Node::new(node.kind, x.place, node.b), x.used)
}

// The right side of a strict: it acts only if the left terminates, and then its follow-up alone remains.
fn right_of_strict(
    room: &[u32],
    left: u32,
    k: u32,
    right: Result<Root, Missing>,
) -> Result<Root, Missing>
    requires { Rooted room.now left }
    ensures { (d : ℕ)
        → Turns room.now k right (on_right strict (chart_in room.now left) d)
        room.now result }
{
    if room_ask::terminates(room, left) {
        right
    } else {
        Err(Missing { more: k })
    }
}

// The right side of a seq: it acts only if the left evades the lifeline, and then the left is pruned by it. If pruning
// leaves nothing, the occurrences on the right do not count.
fn right_of_seq(
    room: &mut [u32],
    left: u32,
    lifeline: u32,
    k: u32,
    right: Result<Root, Missing>,
) -> Result<Root, Missing>
    requires { Rooted room.old left × Beside room.old left right }
    ensures { Turns room.old k right (on_right seq (chart_in room.old left) lifeline)
        room.new result }
{
    let Ok(x) = right else {
        if room_ask::evades(room, left, lifeline) {
            return right;
        }
        return Err(Missing { more: k });
    };
    let pruned = room_prune::prune(room, room_places::at(x, left), lifeline);
    let Some(part) = pruned else {
        return Err(Missing { more: k });
    };
    Ok(room_places::add(room, Node::new(Node::SEQ, part.place, x.place), part.used))
}

// The right side of a par: its follow-up replaces it.
fn right_of_par(room: &mut [u32], left: u32, right: Result<Root, Missing>) -> Result<Root, Missing>
    requires { Beside room.old left right }
    ensures { (k d : ℕ)
        → Turns room.old k right (on_right par (chart_in room.old left) d)
        room.new result }
{
    let x = right?;
    Ok(room_places::add(room, Node::new(Node::PAR, left, x.place), x.used))
}

// Whether an answer says that there is no occurrence at all: k were to be passed over, and k still are.
fn is_none(answer: Result<Root, Missing>, k: u32) -> bool
    ensures { result ≡ none_of answer k }
{
    matches!(answer, Err(missing) if missing.more == k)
}

// The answer for a pair, from the answer for its right side and by the kind of the pair. In an alt the right's
// follow-up alone remains. If there is no occurrence on the right, the left is not asked. (k and `right` are no pair of
// one value: k is what the right side was asked for.)
pub fn on_right(
    room: &mut [u32],
    node: Node,
    lifeline: u32,
    k: u32,
    right: Result<Root, Missing>,
) -> Result<Root, Missing>
    requires { Rooted room.old node.a × Beside room.old node.a right }
    ensures { (q : Pair) → kind_of node.kind ≡ pairs q
        → Turns room.old k right (beside_left q (chart_in room.old node.a) lifeline)
        room.new result }
{
    if is_none(right, k) {
        return right;
    }
    match node.kind {
        Node::STRICT => right_of_strict(room, node.a, k, right),
        Node::SEQ => right_of_seq(room, node.a, lifeline, k, right),
        Node::PAR => right_of_par(room, node.a, right),
        _ => right,
    }
}
