// Cutting a device out of a chart card (01, "Verdicts and numbers given"): every card, lifeline and output gets exactly
// one answer. The answer and the output are defined in cut_spec/specs/Cutting.antt.
#![tactic(auto)]

ghost use Rattle.std.specs.Prelude.{◌≡◌, ◌<◌, length, MatchResult};
ghost use Rattle.card_spec.specs.Parts.{lifelines_of};
ghost use Rattle.number_spec.specs.Refusals.{number_of, place_of};
ghost use Rattle.cut_spec.specs.Cutting.{asked, refused_at, cutting, out_after};

use card_spec::SoundCard;
use cut_spec::CutAnswer;
use node::Node;
use number_spec::Refusal;

// The most room that a cut takes: the places of the card's chart, and as many again for what pruning makes. (An array
// and no vector: the library uses no heap.)
const ROOM: usize = 2 * Node::NODES;

// The answer to a cut that is refused: the number and the place of what refuses it, and no length. (No `From`: it would
// have to stand with `CutAnswer` or with `Refusal`, in a crate `.._spec`, and these have no function.)
fn refused(refusal: Refusal) -> CutAnswer
    ensures { result ≡ refused_at (number_of refusal) (place_of refusal) }
{
    CutAnswer {
        number: number::number_of(refusal),
        place: number::place_of(refusal),
        length: 0,
    }
}

// The cut of a sound card: its chart is laid and pruned in a room of the cut's own.
fn cut_in(card: SoundCard, lifeline: u32, room: &mut [u32], out: &mut [u8]) -> CutAnswer
    requires { lifeline < lifelines_of card.bytes.now × length room.old ≡ 510 }
    ensures { result ≡ cutting card.entry.bytes.now lifeline (length out.old)
        × out.new ≡ out_after card.entry.bytes.now lifeline out.old }
{
    let root = room_lay::lay_whole(card.bytes, room);
    let Some(part) = room_prune::prune(room, root, lifeline) else {
        return refused(Refusal::NoLogLeft);
    };
    let length = write_card::card_bytes(room, part.place);
    if out.len() < length {
        return refused(Refusal::OutputTooShort);
    }
    let counts = card_parts::counts(card.bytes);
    write_card::write_card(room, part.place, counts, out);
    CutAnswer {
        number: number::OK,
        place: 0,
        length: length as u32,
    }
}

// The caller's own card as a sound one, or what refuses it or the lifeline to cut out of it: 1 to 6, then 11.
fn check(card: &[u8], lifeline: u32) -> Result<SoundCard<'_>, Refusal>
    ensures { MatchResult result
        (λ sound. (sound.bytes ≡ card.entry) × (asked card.now lifeline ≡ Ok tt))
        (λ refused. asked card.now lifeline ≡ Err refused) }
{
    let sound = card_check::pass(card)?;
    number::rule(
        Refusal::UndeclaredLifeline,
        lifeline < card_parts::counts(card).lifelines,
    )?;
    Ok(sound)
}

// The cut of any bytes as a card. A refused cut leaves the output as found; any other writes its card to the first
// bytes of the output and leaves the others as found.
pub fn cut(card: &[u8], lifeline: u32, out: &mut [u8]) -> CutAnswer
    ensures { result ≡ cutting card.now lifeline (length out.old)
        × out.new ≡ out_after card.now lifeline out.old }
{
    match check(card, lifeline) {
        Ok(sound) => {
            let mut room = [0u32; ROOM];
            cut_in(sound, lifeline, &mut room, out)
        }
        Err(refusal) => refused(refusal),
    }
}
