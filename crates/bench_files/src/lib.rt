// The program's work: it reads the files `chart` and `log` in its working directory, judges them, and writes one line
// (01, "Logs worked by hand"). What it tells of their contents is defined in bench_spec/specs/Telling.antt, the line in
// bench_spec/specs/Spelling.antt.
#![tactic(auto)]

ghost use Rattle.std.specs.Option.{option_copied};
ghost use Rattle.std.specs.Prelude.{◌≡◌, length, IfOk};
ghost use Rattle.bench_spec.specs.Telling.{ReadInto, filled, told_of, room_told, Reports};
ghost use Rattle.bench_spec.specs.Spelling.{line_of, printed};
ghost use Rattle.bench_spec.specs.Reading.{OnlyIfOpen, AllRead};

use judge_spec::Judged;
use node::Node;
use std::fs::File;
use std::io;
use std::io::{Print, Read};
use std::ops::ControlFlow;
use std::rt::Files;

// The allowance and the room that the program lends.
const ALLOWANCE: u32 = 1000000;

const ROOM: usize = Node::PLACES;

// How many bytes a card and a log are read into: one more than each may have, so that a longer file is found too long.
// (Arrays and no vectors: neither the library nor the program uses the heap.)
const CARD: usize = Node::CARD_BYTES + 1;

const LOG: usize = log_bytes::MOST_BYTES + 1;

// Reads an open file to its end, or as far as the lent bytes go.
// (The answer is a count and no slice: while a slice of them is lent, a contract cannot speak of `bytes`.)
fn read_open<F: Read>(file: &mut F, bytes: &mut [u8]) -> Option<usize>
    ensures within { ReadInto bytes.new result }
    ensures whole { AllRead (F.remaining file.old) result bytes.new }
{
    let long = bytes.len();
    let mut end = 0;
    loop {
        let got = file.read(&mut bytes[end..]);
        match bench_read::after(end, long, got) {
            ControlFlow::Continue(read) => end = read,
            ControlFlow::Break(content) => return content,
        }
    }
}

// Reads a file. An error in place of the file says that it is missing.
fn read<F: Read + Drop>(file: io::Result<F>, bytes: &mut [u8]) -> Option<usize>
    ensures within { OnlyIfOpen result file × ReadInto bytes.new result }
    ensures whole { IfOk file (λ opened. AllRead (F.remaining opened) result bytes.new) }
{
    let mut opened = file.ok()?;
    read_open(&mut opened, bytes)
}

// Reads the file of that name in the working directory.
fn read_named<R: Files>(rt: &R, name: &str, bytes: &mut [u8]) -> Option<usize>
    ensures { ReadInto bytes.new result }
{
    let file = File::open(rt, name);
    read(file, bytes)
}

// The content that was read into these bytes.
fn filled(bytes: &[u8], read: Option<usize>) -> Option<&[u8]>
    requires { ReadInto bytes.now read }
    ensures { option_copied result ≡ filled bytes.now read }
{
    Some(&bytes[..read?])
}

// What the program tells of the contents of `chart` and `log`.
fn judge_contents(card: Option<&[u8]>, log: Option<&[u8]>, room: &mut [u32]) -> Option<Judged>
    ensures { result ≡ told_of (option_copied card.entry) (option_copied log.entry) (length room.old)
        × room.new ≡ room_told (option_copied card.entry) (option_copied log.entry) room.old }
{
    Some(judge::judge(card?, log?, ALLOWANCE, room))
}

// Writes a line. Its contract asks that these are the bytes of the line, since no contract can say what was written.
// A write that fails is not told of: whoever reads the line finds it missing.
fn write<R: Print>(rt: &R, line: &[u8], told: Option<Judged>)
    requires { line.now ≡ printed (line_of told) }
{
    let _ = rt.write_all(line);
}

fn tell<R: Print>(rt: &R, told: Option<Judged>) {
    let text = bench_line::spell(told);
    let bytes = text.bytes;
    let end = text.end;
    write(rt, &bytes[0..end], told);
}

// Judges the files of the working directory, writes the line, and returns what it tells.
pub fn run<R: Files + Print>(rt: &R) -> Option<Judged>
    ensures { Reports result }
{
    let mut card = [0u8; CARD];
    let mut actions = [0u8; LOG];
    let mut room = [0u32; ROOM];
    let chart = read_named(rt, "chart", &mut card);
    let log = read_named(rt, "log", &mut actions);
    let told = judge_contents(filled(&card, chart), filled(&actions, log), &mut room);
    tell(rt, told);
    told
}
