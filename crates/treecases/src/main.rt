// Reads groups from standard input and writes what crate `tree` says of each. A group is the length of a tree and of its cases,
// two bytes each, high first, then the tree, then the cases. A case is a kind, two numbers and a length, then that many bytes of
// text: kind 1 the full path of a node into room of a size, kind 2 a text resolved from a default target into a list of a size.
// All room is lent full of dots, and all lists full of 7s; what they then hold is written as runs of equal values.
#![tactic(auto)]

ghost use Rattle.std.specs.Prelude.{◌≤◌, ◌<◌, length, IfSome};

use showing::{Stretch, answered, number, part_at, refusal, runs, say, two_at};
use tree::Resolved;

fn checked(t: &[u8]) {
    match tree::check(t) {
        Ok(()) => say(b"good\n"),
        Err(p) => {
            say(b"bad ");
            number(p);
            say(b"\n");
        }
    }
}

// Writes the room: its text, and how many dots follow it.
fn held(room: &[u8]) {
    let end = room.iter().rposition(|b| *b != b'.').map_or(0, |i| i + 1);
    say(&room[..end]);
    say(b" ");
    number(room.len() - end);
}

fn written(t: &[u8], node: usize, room: &mut [u8]) {
    answered(tree::full_path(t, node, room));
    held(room);
}

fn full_path(t: &[u8], node: usize, size: usize) {
    let mut room = [b'.'; 12000];
    match room.get_mut(..size) {
        Some(part) => written(t, node, part),
        None => say(b"too much room"),
    }
}

fn resolved(text: &[u8], t: &[u8], default: usize, list: &mut [u16]) {
    match tree::resolve(text, t, default, list) {
        Ok(Resolved::Session) => say(b"session "),
        Ok(Resolved::Nodes(n)) => {
            say(b"nodes ");
            number(n);
        }
        Err(r) => refusal(r),
    }
    runs(list);
}

fn resolve(text: &[u8], t: &[u8], default: usize, size: usize) {
    let mut list = [7u16; 600];
    match list.get_mut(..size) {
        Some(part) => resolved(text, t, default, part),
        None => say(b"too long a list"),
    }
}

fn case(t: &[u8], kind: u8, a: usize, b: usize, text: &[u8]) {
    match kind {
        1 => full_path(t, a, b),
        2 => resolve(text, t, a, b),
        _ => say(b"no such kind"),
    }
    say(b"\n");
}

fn group(t: &[u8], cases: &[u8]) {
    checked(t);
    let mut at: usize = 0;
    // By the place: a case is read at several offsets from it.
    while at < cases.len() {
        let Some(p) = part_at(cases, at, 7, two_at(cases, at, 5)) else {
            say(b"cut\n");
            return;
        };
        let a = two_at(cases, at, 1);
        let b = two_at(cases, at, 3);
        case(t, cases[at], a, b, &cases[p.start..p.end]);
        at = p.end;
    }
}

// Where a tree and its cases stand that begin at a place, if the input is not cut before their end.
fn parts_at(input: &[u8], at: usize) -> Option<(Stretch, Stretch)>
    ensures { IfSome result (λ p. (p.0.start ≤ p.0.end) × (p.0.end ≤ length input.now) × (p.1.start ≤ p.1.end) × (p.1.end ≤ length input.now) × (at < p.1.end)) }
{
    let t = part_at(input, at, 4, two_at(input, at, 0))?;
    let c = part_at(input, t.end, 0, two_at(input, at, 2))?;
    Some((t, c))
}

fn groups(input: &[u8]) {
    let mut at: usize = 0;
    // By the place: a case is read at several offsets from it.
    while at < input.len() {
        let Some((t, c)) = parts_at(input, at) else {
            say(b"cut\n");
            return;
        };
        at = c.end;
        group(&input[t.start..t.end], &input[c.start..c.end]);
    }
}

fn main() {
    let mut all = [0u8; 262144];
    let got = io::read_full(0, &mut all);
    groups(&all[..got]);
}
