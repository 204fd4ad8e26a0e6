// Number 5: how often each node is a child, and the lowest that is not a child exactly once. It is defined in
// card_spec/specs/Findings.antt.
#![tactic(auto)]

ghost use Rattle.std.specs.Prelude.{◌≡◌, ◌≢◌, ℕ, ◌<◌, length, get_or, replicate, MatchOption};
ghost use Rattle.node_spec.specs.Row.{children, uses, Below};
ghost use Rattle.card_spec.specs.Nodes.{row_of};
ghost use Rattle.card_spec.specs.Findings.{misused};
ghost use Rattle.card_spec.specs.Faultless.{Faultless};
ghost use Rattle.card_tree.specs.Counting.{one_more, one_more_each};

use node::Node;
use number_spec::Refusal;

fn count_child(counts: &mut [u16; Node::NODES], child: u32)
    requires { (child < 255) × (get_or counts.old child 0 < 65535) }
    ensures { counts.new ≡ one_more counts.old child }
{
    let at = child as usize;
    counts[at] += 1;
}

// Counts the children of a node.
fn count_children(counts: &mut [u16; Node::NODES], n: Node)
    requires { Below 255 (children n) × ((j : ℕ) → get_or counts.old j 0 < 65534) }
    ensures { counts.new ≡ one_more_each counts.old (children n) }
{
    match n.kind {
        Node::EMPTY..=Node::RECEPTION => {}
        Node::STRICT..=Node::ALT => {
            count_child(counts, n.a);
            count_child(counts, n.b);
        }
        Node::STRICT_LOOP..=Node::PAR_LOOP => count_child(counts, n.a),
        _ => {}
    }
}

// Counts the children of all nodes, from zero. The counts stand in an array beside the nodes: no heap is used, and the
// card is the caller's.
fn count_all(counts: &mut [u16; Node::NODES], nodes: &[u8])
    requires { Faultless nodes.now × (counts.old ≡ replicate 255 0) }
    ensures { (j : ℕ) → j < 255 → get_or counts.new j 0 ≡ uses (row_of nodes.now) j }
{
    for i in 0..card_parts::count(nodes) {
        count_children(counts, card_parts::node_at(nodes, i));
    }
}

// The lowest number whose count is not 1.
fn lowest_not_one(counts: &[u16]) -> Option<usize>
    ensures { MatchOption result ((j : ℕ) → j < length counts.now → get_or counts.now j 0 ≡ 1)
        (λ i. (i < length counts.now) × (get_or counts.now i 0 ≢ 1)
        × ((j : ℕ) → j < i → get_or counts.now j 0 ≡ 1)) }
{
    counts.iter().position(|&count| count != 1)
}

// Refuses the lowest node but the root that is not a child exactly once.
pub fn lowest_misused(nodes: &[u8]) -> Result<(), Refusal>
    requires { Faultless nodes.now }
    ensures { result ≡ misused nodes.now }
{
    let mut counts = [0u16; Node::NODES];
    count_all(&mut counts, nodes);
    let root = card_parts::count(nodes) - 1;
    match lowest_not_one(&counts[..root]) {
        Some(j) => Err(Refusal::MisusedNode { node: j as u32 }),
        None => Ok(()),
    }
}
