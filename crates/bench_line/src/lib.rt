// The line that the program prints, spelled out: "word, place, steps, places" (01, "Logs worked by hand"). It is
// defined in bench_spec/specs/Spelling.antt.
#![tactic(auto)]

ghost use Rattle.std.specs.Prelude.{[], ◌∷◌, Some, length};
ghost use Rattle.bench_spec.specs.Spelling.{decimal, word_of, apart, line_of, printed};
ghost use Rattle.bench_line.specs.Texts.{Fits, Adds, Says};

use judge_spec::Judged;

// The length of the longest line: `refused-N`, three times a blank and a number, and the line's end; N and each number
// have at most ten digits. (That there is room for more is a clause of what adds it: each adds another text.)
const LONGEST: usize = 52;

// A line that is being spelled: `bytes` up to `end`. (No `ArrayString` of the toolchain's `arrayvec`, and no digits of
// its `itoa`: what the program prints would rest on what these crates promise; docs/DECISIONS.md.)
#[derive(Drop)]
pub struct Text {
    pub bytes: [u8; LONGEST],
    pub end: usize,
}

fn with_byte(text: Text, byte: u8) -> Text
    requires { Fits text 1 }
    ensures { Adds text (byte ∷ []) result }
{
    let at = text.end;
    let mut longer = text;
    longer.bytes[at] = byte;
    longer.end = at + 1;
    longer
}

fn with_bytes(text: Text, more: &[u8]) -> Text
    requires { Fits text (length more.now) }
    ensures { Adds text more.now result }
{
    let mut longer = text;
    for i in 0..more.len() {
        longer = with_byte(longer, more[i]);
    }
    longer
}

// The digits of a number, the highest first.
fn with_number(text: Text, number: u32) -> Text
    requires { Fits text (length (decimal number)) }
    ensures { Adds text (decimal number) result }
{
    if number < 10 {
        return with_byte(text, b'0' + number as u8);
    }
    let higher = with_number(text, number / 10);
    with_byte(higher, b'0' + (number % 10) as u8)
}

// The word for a number: a verdict's own, or refused-N.
fn with_word(text: Text, number: u32) -> Text
    requires { Fits text (length (word_of number)) }
    ensures { Adds text (word_of number) result }
{
    match number {
        number::ACCEPTED => with_bytes(text, b"accepted"),
        number::SHORT => with_bytes(text, b"short"),
        number::DEVIATES => with_bytes(text, b"deviates"),
        _ => with_number(with_bytes(text, b"refused-"), number),
    }
}

// A blank, and then the number.
fn with_apart(text: Text, number: u32) -> Text
    requires { Fits text (length (apart number)) }
    ensures { Adds text (apart number) result }
{
    with_number(with_byte(text, b' '), number)
}

fn empty() -> Text
    ensures { Fits result 52 }
{
    Text {
        bytes: [0; LONGEST],
        end: 0,
    }
}

fn judged_line(judged: Judged) -> Text
    ensures { Says (printed (line_of (Some judged))) result }
{
    let word = with_word(empty(), judged.number);
    let place = with_apart(word, judged.place);
    let steps = with_apart(place, judged.steps);
    let places = with_apart(steps, judged.places);
    with_byte(places, b'\n')
}

// The line for what the program tells. (No `Display`: a `fmt` promises its text only where it succeeds, so one that
// always fails would do.)
pub fn spell(told: Option<Judged>) -> Text
    ensures { Says (printed (line_of told)) result }
{
    match told {
        Some(judged) => judged_line(judged),
        None => with_bytes(empty(), b"no-file 0 0 0\n"),
    }
}
