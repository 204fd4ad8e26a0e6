// The check of a card: every run of bytes gets exactly one answer as a chart card (01, "The chart card" and numbers 1
// to 6 of "Verdicts and numbers given"). The answer is defined in card_spec/specs/Checking.antt, the note in
// card_spec/specs/Note.antt.
#![tactic(auto)]

ghost use Rattle.std.specs.Prelude.{◌≡◌, MatchResult};
ghost use Rattle.std.specs.Result.{result_map_both};
ghost use Rattle.card_spec.specs.Parts.{nodes_of};
ghost use Rattle.card_spec.specs.Figures.{depth_of};
ghost use Rattle.card_spec.specs.Checking.{checking, findings, first, refused};
ghost use Rattle.card_spec.specs.Note.{note_of};

use card_spec::{Checked, SoundCard};
use node::Node;
use number_spec::Refusal;

mod rules;

// The answer to a card that is refused: the number and the place of what refuses it, and no figures. (No `From`: it
// would have to stand with `Checked` or with `Refusal`, in a crate `.._spec`, and these have no function.)
fn refused(refusal: Refusal) -> Checked
    ensures { result ≡ refused refusal }
{
    Checked {
        number: number::number_of(refusal),
        place: number::place_of(refusal),
        nodes: 0,
        depth: 0,
        lifelines: 0,
    }
}

// The depth of a sound card, or what refuses any other. The rules stand in the order of 01's table, and the first
// broken rule refuses the card.
fn measure(card: &[u8]) -> Result<u32, Refusal>
    ensures { MatchResult result
        (λ depth. (first (findings card.now) ≡ Ok tt) × (depth ≡ depth_of (nodes_of card.now)))
        (λ refusal. first (findings card.now) ≡ Err refusal) }
{
    rules::frame(card)?;
    rules::back_distance(card)?;
    rules::counts(card)?;
    let nodes = card_parts::nodes(card);
    card_faults::lowest_faulty(nodes, card_parts::counts(card))?;
    card_tree::lowest_misused(nodes)?;
    let depth = card_figures::depth(nodes);
    number::rule(Refusal::TooDeep, depth <= Node::DEPTH)?;
    Ok(depth)
}

// The caller's own card as a sound one, or what refuses it.
pub fn pass(card: &[u8]) -> Result<SoundCard<'_>, Refusal>
    ensures cases { MatchResult result
        (λ sound. (sound.bytes ≡ card.entry) × (first (findings card.now) ≡ Ok tt))
        (λ refusal. first (findings card.now) ≡ Err refusal) }
    ensures equation { result_map_both (λ sound. sound.bytes) (λ refusal. refusal) result
        ≡ result_map_both (λ u. card.entry) (λ refusal. refusal) (first (findings card.now)) }
{
    measure(card)?;
    Ok(SoundCard { bytes: card })
}

// The answer to any run of bytes as a card.
pub fn check(card: &[u8]) -> Checked
    ensures { result ≡ checking card.now }
{
    match measure(card) {
        Ok(depth) => {
            let nodes = card_parts::nodes(card);
            Checked {
                number: number::OK,
                place: 0,
                nodes: card_parts::count(nodes) as u32,
                depth,
                lifelines: card_figures::acting(nodes),
            }
        }
        Err(refusal) => refused(refusal),
    }
}

// The note of a sound card: the leading part of the caller's own bytes. Any other card has none.
pub fn note(card: &[u8]) -> &[u8]
    ensures { result.ref_ptr ≡ card.entry.ref_ptr × result.now ≡ note_of card.now }
{
    match pass(card) {
        Ok(_) => {
            let end = card_parts::first_at(card);
            &card[0..end]
        }
        Err(_) => &card[0..0],
    }
}
