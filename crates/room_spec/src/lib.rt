// The types of what stands in a room and of the answers about it. specs/Room.antt says what the numbers of a room mean,
// specs/Building.antt what the answers mean. The code is in the other crates `room_..`.
#![tactic(auto)]

// An action of a log.
#[derive(Clone, Copy)]
pub struct Action {
    pub lifeline: u32,
    pub receives: bool,
    pub message: u32,
}

// A part in the room: the place of its root, and how many places are in use with it. If that is more than the room has,
// `used` is one more than the room's length, and nothing stands at the place. That is told by `used` and not by an
// option, since a part that exceeds the room is built on: it may still turn out that there is no follow-up, or that 9
// comes first (`exceeds_the_room`, room_spec/proofs/Onward.antt). Parts are named by number: C lends the room, and no
// heap is used.
#[derive(Clone, Copy)]
pub struct Root {
    pub place: u32,
    pub used: u32,
}

// That there are too few occurrences: so many more are still to be passed over.
#[derive(Clone, Copy)]
pub struct Missing {
    pub more: u32,
}
