// The types of the answer to a card. specs/ says what the bytes of a card mean, and proofs/Promises.antt what is
// promised of cards; the code is in the other crates `card_..`.
#![tactic(auto)]

ghost use Rattle.card_spec.specs.Table.{Sound};

// The answer to a card: number 0, place 0 and the figures of a sound one; or the number and place of a refusal, and
// no figures. One struct of numbers, and no `Result`: C reads it.
#[repr(C)]
#[derive(Clone, Copy)]
pub struct Checked {
    pub number: u32,
    pub place: u32,
    pub nodes: u32,
    pub depth: u32,
    pub lifelines: u32,
}

// How many lifelines and messages a card declares.
#[derive(Clone, Copy, PartialEq, Eq)]
pub struct Counts {
    pub lifelines: u32,
    pub messages: u32,
}

// A card that nothing refuses.
#[derive(Clone, Copy)]
pub struct SoundCard<'a> {
    pub bytes: &'a [u8],
    ghost sound: { Sound bytes.now },
}
