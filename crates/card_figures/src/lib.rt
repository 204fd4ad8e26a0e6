// Figures of a card: its depth, and the number of different lifelines that act in it. Both are defined in
// card_spec/specs/Figures.antt.
#![tactic(auto)]

ghost use Rattle.std.specs.Prelude.{◌≡◌, ℕ, ◌+◌, ◌<◌, T, get_or};
ghost use Rattle.node_spec.specs.Kind.{kind_of};
ghost use Rattle.node_spec.specs.Row.{children, highest, Below};
ghost use Rattle.card_spec.specs.Figures.{depth_of, acts_as, acting_of};
ghost use Rattle.card_spec.specs.Faultless.{Faultless};
ghost use Rattle.card_figures.specs.Bits.{bits_of};

use node::Node;

// The depth of a node: one more than that of its deepest child.
fn depth_over(depths: &[u8; Node::NODES], n: Node) -> u8
    requires { Below 255 (children n) × ((j : ℕ) → get_or depths.now j 0 < 255) }
    ensures { result ≡ 1 + highest (λ j. get_or depths.now j 0) (children n) }
{
    let a = n.a as usize;
    let b = n.b as usize;
    match n.kind {
        Node::EMPTY..=Node::RECEPTION => 1,
        Node::STRICT..=Node::ALT => 1 + depths[a].max(depths[b]),
        Node::STRICT_LOOP..=Node::PAR_LOOP => 1 + depths[a],
        _ => 1,
    }
}

// The depth of the root, counting a leaf as 1. The depths stand in an array beside the nodes: no heap is used, and the
// card is the caller's.
pub fn depth(nodes: &[u8]) -> u32
    requires { Faultless nodes.now }
    ensures { result ≡ depth_of nodes.now }
{
    let mut depths = [0u8; Node::NODES];
    let count = card_parts::count(nodes);
    for i in 0..count {
        depths[i] = depth_over(&depths, card_parts::node_at(nodes, i));
    }
    u32::from(depths[count - 1])
}

// The set that has the lifeline of an action, as 16 bits; the empty set for any other node.
fn actor(n: Node) -> u16
    requires { (d : ℕ) → T (acts_as (kind_of n.kind) n d) → d < 16 }
    ensures { result ≡ bits_of (acts_as (kind_of n.kind) n) 16 }
{
    match n.kind {
        Node::EMPTY => 0,
        Node::EMISSION..=Node::RECEPTION => 1 << n.a,
        _ => 0,
    }
}

// How many different lifelines act.
pub fn acting(nodes: &[u8]) -> u32
    requires { Faultless nodes.now }
    ensures { result ≡ acting_of nodes.now }
{
    let mut set: u16 = 0;
    for i in 0..card_parts::count(nodes) {
        set |= actor(card_parts::node_at(nodes, i));
    }
    set.count_ones()
}
