// The judgment of a log by a card (01, "Verdicts and numbers given"): every card, log, allowance and room gets exactly
// one answer. The answer and the room are defined in judge_spec/specs/Judgment.antt.
#![tactic(auto)]

ghost use Rattle.std.specs.Prelude.{◌≡◌, ◌≤◌, length, replicate, MatchResult};
ghost use Rattle.chart_spec.specs.Lending.{answer};
ghost use Rattle.card_spec.specs.Nodes.{card_chart};
ghost use Rattle.log_spec.specs.Bytes.{log_of};
ghost use Rattle.judge_spec.specs.Judgment.{usable, refusal, judged_of, judgment, room_after};

use card_spec::SoundCard;
use judge_spec::Judged;
use node::Node;
use number_spec::Refusal;
use search_spec::Tally;

// The answer to a sound card and log, in a room that is usable as a whole. (The two lengths are clauses here and in
// `judge_sound`, and no type: `room_lay::lay` and `search::search` ask them so, and what these require may not change.
// Card, log, allowance and room are no type either: C lends them one by one.)
fn answer_in(card: SoundCard, log: &[u8], allowance: u32, room: &mut [u32]) -> Judged
    requires { length log.now ≤ 256 × length room.old ≤ 16384 }
    ensures { result ≡ judged_of (answer (card_chart card.entry.bytes.now) (log_of log.now) allowance
        (length room.old)) }
{
    let Some(root) = room_lay::lay(card.bytes, room) else {
        return judge_answer::refused(number::ROOM_EXCEEDED, 0);
    };
    let tally = Tally {
        left: allowance,
        places: root.used,
    };
    let ended = search::search(log, room, root, tally);
    let actions = (log.len() / log_bytes::ACTION_BYTES) as u32;
    judge_answer::tell(ended, allowance, actions)
}

// The answer to a sound card and log; the room is cleared.
fn judge_sound(card: SoundCard, log: &[u8], allowance: u32, room: &mut [u32]) -> Judged
    requires { length log.now ≤ 256 × length room.old ≤ 16384 }
    ensures { result ≡ judged_of (answer (card_chart card.entry.bytes.now) (log_of log.now) allowance
        (length room.old))
        × room.new ≡ replicate (length room.old) 0 }
{
    let judged = answer_in(card, log, allowance, room);
    room_places::clear(room);
    judged
}

// How many numbers of a room are usable.
fn usable(long: usize) -> usize
    ensures { result ≡ usable long }
{
    long.min(Node::PLACES)
}

// The caller's own card as a sound one, or what refuses it or the log.
fn check<'a>(card: &'a [u8], log: &[u8]) -> Result<SoundCard<'a>, Refusal>
    ensures { MatchResult result
        (λ sound. (sound.bytes ≡ card.entry) × (refusal card.now log.now ≡ Ok tt))
        (λ refused. refusal card.now log.now ≡ Err refused) }
{
    let sound = card_check::pass(card)?;
    log_bytes::check(log, card_parts::counts(card))?;
    Ok(sound)
}

// The judgment of any bytes as a card and a log. A refusal leaves the room as found; any other answer leaves its usable
// part zeroed.
pub fn judge(card: &[u8], log: &[u8], allowance: u32, room: &mut [u32]) -> Judged
    ensures { result ≡ judgment card.now log.now allowance (length room.old)
        × room.new ≡ room_after card.now log.now room.old }
{
    match check(card, log) {
        Ok(sound) => {
            let end = usable(room.len());
            judge_sound(sound, log, allowance, &mut room[0..end])
        }
        Err(refusal) => {
            judge_answer::refused(number::number_of(refusal), number::place_of(refusal))
        }
    }
}
