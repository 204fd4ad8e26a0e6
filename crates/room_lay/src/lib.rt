// Laying a card's chart into a room: one place for each node, in the card's own order (01, "How a log is executed",
// Places). The chart of a card is defined in card_spec/specs/Nodes.antt, what stands in a room in
// room_spec/specs/Room.antt.
#![tactic(auto)]

ghost use Rattle.std.specs.Prelude.{Some, ◌≡◌, ◌≤◌, length};
ghost use Rattle.card_spec.specs.Table.{Sound};
ghost use Rattle.room_lay.specs.Rooms.{taken, laying, laid_in};

use room_spec::Root;

// Lays the chart of a sound card into the first places of a room that has enough of them.
// (`Sound` is a clause here and in `lay`: a `SoundCard` would ask more, since only `card_check::pass` makes one.)
pub fn lay_whole(card: &[u8], room: &mut [u32]) -> Root
    requires { Sound card.now × taken card.now ≤ length room.old × length room.old ≤ 16384 }
    ensures { Some result ≡ laying card.now room.old
        × room.new ≡ laid_in card.now room.old }
{
    let nodes = card_parts::nodes(card);
    let count = card_parts::count(nodes);
    let mut root = Root { place: 0, used: 0 };
    for i in 0..count {
        let node = card_parts::node_at(nodes, i);
        root = room_places::add(room, node, i as u32);
    }
    root
}

// Lays the chart of a sound card into the first places of a room. If the chart exceeds the room, there is no root, and
// nothing is written.
pub fn lay(card: &[u8], room: &mut [u32]) -> Option<Root>
    requires { Sound card.now × length room.old ≤ 16384 }
    ensures { result ≡ laying card.now room.old
        × room.new ≡ laid_in card.now room.old }
{
    let count = card_parts::count(card_parts::nodes(card));
    if room.len() < count {
        return None;
    }
    Some(lay_whole(card, room))
}
