// Number 4: what is wrong with one node, and the lowest node with a fault. Both are defined in
// card_spec/specs/Findings.antt.
#![tactic(auto)]

ghost use Rattle.std.specs.Prelude.{◌≡◌, ◌<◌, ◌≤◌};
ghost use Rattle.card_spec.specs.Nodes.{count_of};
ghost use Rattle.card_spec.specs.Findings.{in_order, orderly, faulty};

use card_spec::Counts;
use node::Node;
use number_spec::Refusal;

// Whether node i is in order: `c` is its fourth byte.
fn is_in_order(n: Node, c: u32, i: u32, counts: Counts) -> bool
    ensures { result ≡ in_order counts.lifelines counts.messages i n c }
{
    c == 0
        && match n.kind {
            Node::EMPTY => n.a == 0 && n.b == 0,
            Node::EMISSION..=Node::RECEPTION => n.a < counts.lifelines && n.b < counts.messages,
            Node::STRICT..=Node::ALT => n.a < i && n.b < i,
            Node::STRICT_LOOP..=Node::PAR_LOOP => n.b == 0 && n.a < i,
            _ => false,
        }
}

// The same, of the bytes of the nodes.
fn is_orderly(nodes: &[u8], i: usize, counts: Counts) -> bool
    requires { (i < count_of nodes.now) × (i < 255) }
    ensures { result ≡ orderly counts.lifelines counts.messages nodes.now i }
{
    let c = card_parts::spare_at(nodes, i);
    is_in_order(card_parts::node_at(nodes, i), c, i as u32, counts)
}

// Refuses the lowest node with a fault.
pub fn lowest_faulty(nodes: &[u8], counts: Counts) -> Result<(), Refusal>
    requires { count_of nodes.now ≤ 255 }
    ensures { result ≡ faulty counts.lifelines counts.messages nodes.now }
{
    let first = (0..card_parts::count(nodes)).find(|&i| !is_orderly(nodes, i, counts));
    match first {
        Some(i) => Err(Refusal::FaultyNode { node: i as u32 }),
        None => Ok(()),
    }
}
