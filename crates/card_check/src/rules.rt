// Rules of the whole card: numbers 1, 2 and 3 of 01's table. Each refuses a card for which it does not hold.
ghost use Rattle.std.specs.Prelude.{◌≡◌};
ghost use Rattle.number_spec.specs.declared.Refusal.TheVariants.{CardFrame, BackDistance, Counts};
ghost use Rattle.number_spec.specs.Refusals.{rule};
ghost use Rattle.card_spec.specs.Findings.{framed, back_in_rule, counts_in_range};

use node::Node;
use number_spec::Refusal;

// 1: neither too short nor too long, and the last two bytes are right.
pub fn frame(card: &[u8]) -> Result<(), Refusal>
    ensures { result ≡ rule CardFrame (framed card.now) }
{
    number::rule(
        Refusal::CardFrame,
        (6..=Node::CARD_BYTES).contains(&card.len())
            && card_parts::trailer(card, 4) == 0x57
            && card_parts::trailer(card, 5) == 0x4C,
    )
}

// 2: the back distance spans whole nodes, one to 255 of them, and all of them lie within the card.
pub fn back_distance(card: &[u8]) -> Result<(), Refusal>
    ensures { result ≡ rule BackDistance (back_in_rule card.now) }
{
    let back = card_parts::back(card);
    number::rule(
        Refusal::BackDistance,
        back % 4 == 0 && (4..=1020).contains(&back) && back <= card_parts::trailer_at(card),
    )
}

// 3: there are lifelines and messages, and not too many.
pub fn counts(card: &[u8]) -> Result<(), Refusal>
    ensures { result ≡ rule Counts (counts_in_range card.now) }
{
    let counts = card_parts::counts(card);
    number::rule(
        Refusal::Counts,
        (1..=Node::LIFELINES).contains(&counts.lifelines)
            && (1..=Node::MESSAGES).contains(&counts.messages),
    )
}
