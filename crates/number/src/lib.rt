// The numbers of the answers, by name, and the number and the place of what refuses. These two are defined in
// number_spec/specs/Refusals.antt. When each number is given is defined in card_spec/specs/Table.antt (0 to 6),
// judge_spec/specs/Table.antt (7 and 8), cut_spec/specs/Table.antt (0 and 11 to 13) and chart_spec/specs/Lending.antt
// (9, 10 and the verdicts).
#![tactic(auto)]

ghost use Rattle.std.specs.Prelude.{◌≡◌};
ghost use Rattle.number_spec.specs.Refusals.{number_of, place_of, rule};

use number_spec::Refusal;

// No refusal: the card is sound, or the cut is written.
pub const OK: u32 = 0;

// Of a card.
pub const CARD_FRAME: u32 = 1;

pub const BACK_DISTANCE: u32 = 2;

pub const COUNTS: u32 = 3;

pub const FAULTY_NODE: u32 = 4;

pub const MISUSED_NODE: u32 = 5;

pub const TOO_DEEP: u32 = 6;

// Of a log.
pub const LOG_LENGTH: u32 = 7;

pub const UNDECLARED_ACTION: u32 = 8;

// Of the lending.
pub const ALLOWANCE_SPENT: u32 = 9;

pub const ROOM_EXCEEDED: u32 = 10;

// Of a cut.
pub const UNDECLARED_LIFELINE: u32 = 11;

pub const NO_LOG_LEFT: u32 = 12;

pub const OUTPUT_TOO_SHORT: u32 = 13;

// Verdicts.
pub const ACCEPTED: u32 = 20;

pub const SHORT: u32 = 21;

pub const DEVIATES: u32 = 22;

// The number in 01's table. (This, `place_of` and `rule` are no methods: `Refusal` is a type of a crate `.._spec`, and
// these have no function.)
pub fn number_of(refusal: Refusal) -> u32
    ensures { result ≡ number_of refusal }
{
    match refusal {
        Refusal::CardFrame => CARD_FRAME,
        Refusal::BackDistance => BACK_DISTANCE,
        Refusal::Counts => COUNTS,
        Refusal::FaultyNode { .. } => FAULTY_NODE,
        Refusal::MisusedNode { .. } => MISUSED_NODE,
        Refusal::TooDeep => TOO_DEEP,
        Refusal::LogLength => LOG_LENGTH,
        Refusal::UndeclaredAction { .. } => UNDECLARED_ACTION,
        Refusal::AllowanceSpent => ALLOWANCE_SPENT,
        Refusal::RoomExceeded => ROOM_EXCEEDED,
        Refusal::UndeclaredLifeline => UNDECLARED_LIFELINE,
        Refusal::NoLogLeft => NO_LOG_LEFT,
        Refusal::OutputTooShort => OUTPUT_TOO_SHORT,
    }
}

// The node or the action at fault; 0 where the whole is refused.
pub fn place_of(refusal: Refusal) -> u32
    ensures { result ≡ place_of refusal }
{
    match refusal {
        Refusal::FaultyNode { node } => node,
        Refusal::MisusedNode { node } => node,
        Refusal::UndeclaredAction { action } => action,
        _ => 0,
    }
}

// Refuses unless the rule holds.
pub fn rule(refusal: Refusal, holds: bool) -> Result<(), Refusal>
    ensures { result ≡ rule refusal holds }
{
    if holds { Ok(()) } else { Err(refusal) }
}
