// What refuses a card, a log, a lending or a cut. specs/ has its number and its place in 01's table; the code is in the
// crate `number`.
#![tactic(auto)]

// What refuses: numbers 1 to 13 of 01's table, with the node or the action at which the table places it.
#[derive(Clone, Copy, PartialEq, Eq)]
pub enum Refusal {
    CardFrame,
    BackDistance,
    Counts,
    FaultyNode { node: u32 },
    MisusedNode { node: u32 },
    TooDeep,
    LogLength,
    UndeclaredAction { action: u32 },
    AllowanceSpent,
    RoomExceeded,
    UndeclaredLifeline,
    NoLogLeft,
    OutputTooShort,
}
