// The deepest chart that a sound card and a log can grow in 16,384 places, and the execution rules on it. Each rule
// descends it by recursion, and all of it runs in a stack of 1 MB. The card is loopw(alt(0!0, strict(N, 0!2))) with N
// twelve weak loops around 0!1; the log is 125 times 0!0, each of which makes the chart two levels deeper, and then
// 0!1.
#![tactic(auto)]

ghost use Rattle.std.specs.Prelude.{suc, ◌≤◌, length};
ghost use Rattle.room_spec.specs.Room.{Rooted, Stands};

use node::Node;
use room_spec::{Action, Root};
use std::io;
use std::io::Stdout;

// What is printed of a test; std prints `true` and `false`.
fn word(is: bool) -> &'static str {
    if is { "yes" } else { "no" }
}

// The depth of the chart at a place, counting its root as 1.
fn depth(room: &[u32], place: u32) -> u32
    requires { Rooted room.now place }
    ensures { result ≤ suc place }
{
    let node = room_places::read(room, place);
    match node.kind {
        Node::STRICT..=Node::ALT => 1 + depth(room, node.a).max(depth(room, node.b)),
        Node::STRICT_LOOP..=Node::PAR_LOOP => 1 + depth(room, node.a),
        _ => 1,
    }
}

// The chart that is left after an action was executed so many times, each time at its first occurrence; fewer times if
// it does not occur or the room is exceeded.
fn grow(room: &mut [u32], root: Root, action: &Action, times: u32) -> Root
    requires { Stands room.old root }
    ensures { Stands room.new result }
{
    let mut last = root;
    for _ in 0..times {
        let Ok(x) = room_execute::execute(room, last, 0, action) else {
            return last;
        };
        if room_places::exceeds(x, room) {
            return last;
        }
        last = x;
    }
    last
}

// The execution rules on the chart at a root: the places in use with it and its depth, whether it terminates and evades
// a lifeline, and whether pruning it and executing it once more exceed the room.
fn ask(stdout: Stdout, room: &mut [u32], root: Root) -> io::Result<()>
    requires { Stands room.old root }
{
    let deep = depth(room, root.place);
    let terminates = word(room_ask::terminates(room, root.place));
    let evades = word(room_ask::evades(room, root.place, 1));
    println!(stdout; "places {}", root.used)?;
    println!(stdout; "depth {deep}")?;
    println!(stdout; "terminates {terminates}")?;
    println!(stdout; "evades lifeline 1 {evades}")?;
    let Some(part) = room_prune::prune(room, root, 1) else {
        return Ok(());
    };
    let exceeds = word(room_places::exceeds(part, room));
    println!(stdout; "pruned by lifeline 1 it exceeds the room {exceeds}")?;
    let Ok(x) = room_execute::execute(room, root, 0, &emission(1)) else {
        return Ok(());
    };
    let exceeds = word(room_places::exceeds(x, room));
    println!(stdout; "executed by 0!1 it exceeds the room {exceeds}")
}

// 0!message.
fn emission(message: u32) -> Action {
    Action {
        lifeline: 0,
        receives: false,
        message,
    }
}

// Lays the card, executes the log, and asks. (test_rules lays a card and takes follow-ups in this way too. A program is
// a crate of its own, and one more crate for the few lines would be no plainer.)
fn run(stdout: Stdout, card: &[u8], room: &mut [u32]) -> io::Result<()>
    requires { length room.old ≤ 16384 }
{
    let Ok(sound) = card_check::pass(card) else {
        return Ok(());
    };
    let Some(root) = room_lay::lay(sound.bytes, room) else {
        return Ok(());
    };
    let many = grow(room, root, &emission(0), 125);
    let all = grow(room, many, &emission(1), 1);
    ask(stdout, room, all)
}

fn main(rt: HostRuntime) -> io::Result<()> {
    let mut room = [0u32; 16384];
    run(
        rt.stdout(),
        b"\x01\x00\x01\x00\x09\x00\x00\x00\x09\x01\x00\x00\x09\x02\x00\x00\x09\x03\x00\x00\x09\x04\x00\x00\x09\x05\x00\x00\x09\x06\x00\x00\x09\x07\x00\x00\x09\x08\x00\x00\x09\x09\x00\x00\x09\x0a\x00\x00\x09\x0b\x00\x00\x01\x00\x02\x00\x03\x0c\x0d\x00\x01\x00\x00\x00\x06\x0f\x0e\x00\x09\x10\x00\x00\x48\x00\x01\x03\x57\x4c",
        &mut room,
    )
}
