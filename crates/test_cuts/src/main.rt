// Cuts, run: 01's examples, every refusal, and what a cut does not simplify. Each line has number, place and length,
// and then the 24 bytes of an output that was filled with EE hex and of which the first bytes were lent.
#![tactic(auto)]

ghost use Rattle.std.specs.Prelude.{◌≤◌};

use std::io;
use std::io::Stdout;

const OUT: usize = 24;

// The cut of a card by a lifeline, with so many bytes of an output lent.
fn show(stdout: Stdout, card: &[u8], lifeline: u32, lent: usize) -> io::Result<()>
    requires { lent ≤ 24 }
{
    let mut out = [0xEEu8; OUT];
    let answer = cut::cut(card, lifeline, &mut out[..lent]);
    print!(stdout; "{} {} {}", answer.number, answer.place, answer.length)?;
    for byte in out {
        print!(stdout; " {byte:02x}")?;
    }
    println!(stdout)
}

// "Cutting lifeline 0 from alt(0!0, 1!0) leaves 1!0; from 0!0 it gives 12; from a strict loop of 0!0 it leaves empty."
fn examples(stdout: Stdout) -> io::Result<()> {
    show(
        stdout,
        b"\x01\x00\x00\x00\x01\x01\x00\x00\x06\x00\x01\x00\x0c\x00\x02\x01\x57\x4c",
        0,
        24,
    )?;
    show(stdout, b"\x01\x00\x00\x00\x04\x00\x02\x01\x57\x4c", 0, 24)?;
    show(
        stdout,
        b"\x01\x00\x00\x00\x07\x00\x00\x00\x08\x00\x02\x01\x57\x4c",
        0,
        24,
    )
}

// Each refusal of a card, 1 to 6, with a lifeline that is not declared and no output; then 11 and 12, both with no
// output; then 13 with one byte too few, and the same cut with just enough.
fn refusals(stdout: Stdout) -> io::Result<()> {
    show(stdout, b"\x57\x4c", 9, 0)?;
    show(stdout, b"\x00\x00\x00\x00\x03\x00\x02\x01\x57\x4c", 9, 0)?;
    show(stdout, b"\x00\x00\x00\x00\x04\x00\x11\x01\x57\x4c", 20, 0)?;
    show(
        stdout,
        b"\x00\x00\x00\x00\x0b\x00\x00\x00\x08\x00\x02\x01\x57\x4c",
        9,
        0,
    )?;
    show(
        stdout,
        b"\x00\x00\x00\x00\x00\x00\x00\x00\x08\x00\x02\x01\x57\x4c",
        9,
        0,
    )?;
    show(
        stdout,
        b"\x00\x00\x00\x00\x07\x00\x00\x00\x07\x01\x00\x00\x07\x02\x00\x00\x07\x03\x00\x00\x07\x04\x00\x00\x07\x05\x00\x00\x07\x06\x00\x00\x07\x07\x00\x00\x07\x08\x00\x00\x07\x09\x00\x00\x07\x0a\x00\x00\x07\x0b\x00\x00\x07\x0c\x00\x00\x07\x0d\x00\x00\x07\x0e\x00\x00\x07\x0f\x00\x00\x44\x00\x02\x01\x57\x4c",
        9,
        0,
    )?;
    show(stdout, b"\x01\x00\x00\x00\x04\x00\x02\x01\x57\x4c", 2, 0)?;
    show(stdout, b"\x01\x00\x00\x00\x04\x00\x02\x01\x57\x4c", 0, 0)?;
    show(stdout, b"\x01\x00\x00\x00\x04\x00\x02\x01\x57\x4c", 1, 9)?;
    show(stdout, b"\x01\x00\x00\x00\x04\x00\x02\x01\x57\x4c", 1, 10)
}

// A loop around a loop that becomes empty stays; nodes in another order, after a note, are written left part, right
// part, parent when a declared lifeline that never acts is cut out; and an alt of which both sides are left stays an
// alt.
fn others(stdout: Stdout) -> io::Result<()> {
    show(
        stdout,
        b"\x01\x00\x00\x00\x07\x00\x00\x00\x07\x01\x00\x00\x0c\x00\x02\x01\x57\x4c",
        0,
        24,
    )?;
    show(
        stdout,
        b"paddy\x02\x01\x00\x00\x01\x00\x00\x00\x04\x01\x00\x00\x0c\x00\x03\x01\x57\x4c",
        2,
        24,
    )?;
    show(
        stdout,
        b"\x02\x01\x00\x00\x01\x01\x00\x00\x06\x01\x00\x00\x0c\x00\x02\x01\x57\x4c",
        0,
        24,
    )
}

fn main(rt: HostRuntime) -> io::Result<()> {
    let stdout = rt.stdout();
    examples(stdout)?;
    refusals(stdout)?;
    others(stdout)
}
