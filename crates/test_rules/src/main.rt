// The execution rules, run: charts of 01's table and of its "Errors a reviewer will look for", each with the follow-ups
// of some actions. A line has the chart, the places in use with it, whether it terminates and which of lifelines 0 and
// 1 it evades.
#![tactic(auto)]

ghost use Rattle.std.specs.Prelude.{IfSome};
ghost use Rattle.room_spec.specs.Room.{Rooted, Stands, Kept};

use node::Node;
use room_spec::{Action, Root};
use std::io;
use std::io::Stdout;

// What stands before the parts of a pair or of a loop. (Kinds are numbers: see `Node`.)
fn name(kind: u32) -> &'static str {
    match kind {
        Node::STRICT => "strict",
        Node::SEQ => "seq",
        Node::PAR => "par",
        Node::ALT => "alt",
        Node::STRICT_LOOP => "loops",
        Node::HEAD_LOOP => "looph",
        Node::WEAK_LOOP => "loopw",
        _ => "loopp",
    }
}

fn write_action(stdout: Stdout, action: Action) -> io::Result<()> {
    let mark = if action.receives { '?' } else { '!' };
    print!(stdout; "{}{mark}{}", action.lifeline, action.message)
}

// The chart at a place. (No `Display` for what is written here: a chart is a place and the room that it stands in, and a
// type of both would stand for this alone.)
fn write_chart(stdout: Stdout, room: &[u32], place: u32) -> io::Result<()>
    requires { Rooted room.now place }
{
    let node = room_places::read(room, place);
    match node.kind {
        Node::EMISSION..=Node::RECEPTION => write_action(
            stdout,
            Action {
                lifeline: node.a,
                receives: node.kind == Node::RECEPTION,
                message: node.b,
            },
        ),
        Node::STRICT..=Node::ALT => {
            print!(stdout; "{}(", name(node.kind))?;
            write_chart(stdout, room, node.a)?;
            print!(stdout; ",")?;
            write_chart(stdout, room, node.b)?;
            print!(stdout; ")")
        }
        Node::STRICT_LOOP..=Node::PAR_LOOP => {
            print!(stdout; "{}(", name(node.kind))?;
            write_chart(stdout, room, node.a)?;
            print!(stdout; ")")
        }
        _ => print!(stdout; "nil"),
    }
}

// A line for a part: its chart, the places in use with it, whether it terminates, what it evades.
fn write_line(stdout: Stdout, room: &[u32], root: Root) -> io::Result<()>
    requires { Rooted room.now root.place }
{
    write_chart(stdout, room, root.place)?;
    print!(stdout; " {}", root.used)?;
    if room_ask::terminates(room, root.place) {
        print!(stdout; " terminates")?;
    }
    if room_ask::evades(room, root.place, 0) {
        print!(stdout; " evades-0")?;
    }
    if room_ask::evades(room, root.place, 1) {
        print!(stdout; " evades-1")?;
    }
    println!(stdout)
}

// Follow-up k of a part by an action; nothing if there is none, or if it exceeds the room.
fn follow_up(room: &mut [u32], root: Root, action: Action, k: u32) -> Option<Root>
    requires { Stands room.old root }
    ensures kept { Kept root.used room.old room.new }
    ensures stands { IfSome result (λ x. Stands room.new x) }
{
    let x = room_execute::execute(room, root, k, &action).ok()?;
    if room_places::exceeds(x, room) {
        return None;
    }
    Some(x)
}

// The follow-ups of a part by an action, each built above the same places in use.
fn write_follow_ups(stdout: Stdout, room: &mut [u32], root: Root, action: Action) -> io::Result<()>
    requires { Stands room.old root }
    ensures { Kept root.used room.old room.new }
{
    for k in 0..4 {
        let Some(x) = follow_up(room, root, action, k) else {
            return Ok(());
        };
        print!(stdout; "    ")?;
        write_line(stdout, room, x)?;
    }
    Ok(())
}

// Follows the chart at a root by steps of three bytes: the action's two bytes as in a log, and the number of the
// follow-up to go on with.
fn walk(stdout: Stdout, room: &mut [u32], root: Root, steps: &[u8]) -> io::Result<()>
    requires { Stands room.old root }
{
    let mut part = root;
    for step in steps.chunks_exact(3) {
        let action = log_bytes::action_of(step[0], step[1]);
        print!(stdout; "  ")?;
        write_action(stdout, action)?;
        println!(stdout)?;
        write_follow_ups(stdout, room, part, action)?;
        let Some(x) = follow_up(room, part, action, u32::from(step[2])) else {
            return Ok(());
        };
        part = x;
    }
    Ok(())
}

// A card's chart, and what these steps make of it.
fn show(stdout: Stdout, card: &[u8], steps: &[u8]) -> io::Result<()> {
    let mut room = [0u32; 64];
    let Ok(sound) = card_check::pass(card) else {
        return Ok(());
    };
    let Some(root) = room_lay::lay(sound.bytes, &mut room) else {
        return Ok(());
    };
    write_line(stdout, &room, root)?;
    walk(stdout, &mut room, root, steps)
}

// The charts of 01's table: empty, S, par(0!0, 0!0), alt(0!0, S), head loop of K and weak loop of K. They show these of
// its errors: following the first occurrence only, and counting the places of a failed choice for ever (alt(0!0, S):
// two follow-ups, both built above five places in use); running a weak loop as a head loop (the last two); taking "the
// log is used up" for acceptance (S after 0!0 does not terminate).
fn table(stdout: Stdout) -> io::Result<()> {
    show(
        stdout,
        b"\x00\x00\x00\x00\x04\x00\x02\x03\x57\x4c",
        b"\x00\x00\x00",
    )?;
    show(
        stdout,
        b"\x01\x00\x00\x00\x02\x01\x00\x00\x03\x00\x01\x00\x0c\x00\x02\x03\x57\x4c",
        b"\x00\x00\x00\x03\x00\x00",
    )?;
    show(
        stdout,
        b"\x01\x00\x00\x00\x02\x01\x00\x00\x03\x00\x01\x00\x0c\x00\x02\x03\x57\x4c",
        b"\x03\x00\x00",
    )?;
    show(
        stdout,
        b"\x01\x00\x00\x00\x01\x00\x00\x00\x05\x00\x01\x00\x0c\x00\x02\x03\x57\x4c",
        b"\x00\x00\x01",
    )?;
    show(
        stdout,
        b"\x01\x00\x00\x00\x01\x00\x00\x00\x02\x01\x00\x00\x03\x01\x02\x00\x06\x00\x03\x00\x14\x00\x02\x03\x57\x4c",
        b"\x00\x00\x01\x03\x00\x00",
    )?;
    show(
        stdout,
        b"\x01\x00\x00\x00\x02\x01\x00\x00\x03\x00\x01\x00\x01\x01\x01\x00\x06\x02\x03\x00\x08\x04\x00\x00\x18\x00\x02\x03\x57\x4c",
        b"\x00\x00\x00\x02\x01\x00",
    )?;
    show(
        stdout,
        b"\x01\x00\x00\x00\x02\x01\x00\x00\x03\x00\x01\x00\x01\x01\x01\x00\x06\x02\x03\x00\x09\x04\x00\x00\x18\x00\x02\x03\x57\x4c",
        b"\x00\x00\x00\x02\x01\x00\x03\x00\x00",
    )
}

// The right of a seq acts, and the left is pruned: an alt to one side, so that the side that contradicts the log has no
// follow-up afterwards; an alt to both sides; a loop to an empty; a loop to a loop; and a left that lets nothing pass.
fn seqs(stdout: Stdout) -> io::Result<()> {
    show(
        stdout,
        b"\x01\x00\x00\x00\x01\x01\x00\x00\x06\x00\x01\x00\x01\x00\x01\x00\x04\x02\x03\x00\x14\x00\x02\x03\x57\x4c",
        b"\x00\x01\x00\x00\x00\x00",
    )?;
    show(
        stdout,
        b"\x01\x01\x00\x00\x01\x01\x01\x00\x06\x00\x01\x00\x01\x00\x00\x00\x04\x02\x03\x00\x14\x00\x02\x03\x57\x4c",
        b"\x00\x00\x00",
    )?;
    show(
        stdout,
        b"\x01\x00\x00\x00\x07\x00\x00\x00\x01\x00\x01\x00\x04\x01\x02\x00\x10\x00\x02\x03\x57\x4c",
        b"\x00\x01\x00",
    )?;
    show(
        stdout,
        b"\x01\x01\x00\x00\x02\x01\x00\x00\x03\x00\x01\x00\x0a\x02\x00\x00\x01\x00\x00\x00\x04\x03\x04\x00\x18\x00\x02\x03\x57\x4c",
        b"\x00\x00\x00",
    )?;
    show(
        stdout,
        b"\x01\x00\x00\x00\x01\x00\x01\x00\x04\x00\x01\x00\x0c\x00\x02\x03\x57\x4c",
        b"\x00\x01\x00",
    )
}

// The right of a strict whose left terminates; the strict and the parallel loop; a weak loop in a weak loop.
fn others(stdout: Stdout) -> io::Result<()> {
    show(
        stdout,
        b"\x01\x00\x00\x00\x07\x00\x00\x00\x01\x01\x00\x00\x03\x01\x02\x00\x10\x00\x02\x03\x57\x4c",
        b"\x02\x00\x00",
    )?;
    show(
        stdout,
        b"\x01\x00\x00\x00\x02\x01\x00\x00\x03\x00\x01\x00\x07\x02\x00\x00\x10\x00\x02\x03\x57\x4c",
        b"\x00\x00\x00\x03\x00\x00\x00\x00\x00",
    )?;
    show(
        stdout,
        b"\x01\x00\x00\x00\x02\x01\x00\x00\x03\x00\x01\x00\x0a\x02\x00\x00\x10\x00\x02\x03\x57\x4c",
        b"\x00\x00\x00\x00\x00\x00\x03\x00\x01",
    )?;
    show(
        stdout,
        b"\x01\x00\x00\x00\x09\x00\x00\x00\x09\x01\x00\x00\x0c\x00\x02\x03\x57\x4c",
        b"\x00\x00\x00\x00\x00\x02",
    )
}

fn main(rt: HostRuntime) -> io::Result<()> {
    let stdout = rt.stdout();
    table(stdout)?;
    seqs(stdout)?;
    others(stdout)
}
