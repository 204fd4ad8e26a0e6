// The C interface. Each function but `airpistil_version` calls the function of the same name in `card_check`, `judge`
// or `cut` and returns its answer, or for a note its length. The answers are defined in card_spec, judge_spec and
// cut_spec. include/airpistil.h declares and documents these functions.
#![tactic(auto)]

ghost use Rattle.std.specs.Prelude.{◌≡◌, length};
ghost use Rattle.card_spec.specs.Checking.{checking};
ghost use Rattle.card_spec.specs.Note.{note_of};
ghost use Rattle.judge_spec.specs.Judgment.{judgment, room_after};
ghost use Rattle.cut_spec.specs.Cutting.{cutting, out_after};

use card_spec::Checked;
use cut_spec::CutAnswer;
use judge_spec::Judged;

// The version of this library, 1.0.0, as one number: 10,000 times the first part, plus 100 times the second, plus the
// third.
const VERSION: u32 = 10000;

#[unsafe(no_mangle)]
pub extern "C" fn airpistil_version() -> u32
    ensures { result ≡ 10000 }
{
    VERSION
}

// The answer to a card: number, place, nodes, depth, lifelines.
#[unsafe(no_mangle)]
pub extern "C" fn airpistil_check(card: &[u8]) -> Checked
    ensures { result ≡ checking card.now }
{
    card_check::check(card)
}

// How many of the card's leading bytes are its note. (C cannot be handed a part of the caller's bytes, only its
// length.)
#[unsafe(no_mangle)]
pub extern "C" fn airpistil_note(card: &[u8]) -> usize
    ensures { result ≡ length (note_of card.now) }
{
    let note = card_check::note(card);
    note.len()
}

// The judgment of a log by a card: number, place, steps, places.
#[unsafe(no_mangle)]
pub extern "C" fn airpistil_judge(
    card: &[u8],
    log: &[u8],
    allowance: u32,
    room: &mut [u32],
) -> Judged
    ensures { result ≡ judgment card.now log.now allowance (length room.old)
        × room.new ≡ room_after card.now log.now room.old }
{
    judge::judge(card, log, allowance, room)
}

// The cut of a device out of a card: number, place, length.
#[unsafe(no_mangle)]
pub extern "C" fn airpistil_cut(card: &[u8], lifeline: u32, out: &mut [u8]) -> CutAnswer
    ensures { result ≡ cutting card.now lifeline (length out.old)
        × out.new ≡ out_after card.now lifeline out.old }
{
    cut::cut(card, lifeline, out)
}
