// Reads cases from standard input, each the size of the room and the line's length in two bytes, high first, and then the line's
// bytes, and writes what crate `reading` says of each: the answer, the room filled with dots as runs of equal bytes afterwards,
// the refusal as a record, a cut as a record, and the target's place and bytes.
#![tactic(auto)]

use showing::{answered, number, part_at, runs, say, two_at};
use text::Refusal;

// The answer of a read into the first bytes of the room, and what the whole room then holds.
fn read(line: &[u8], size: usize) {
    let mut room = [b'.'; 420];
    if let Some(part) = room.get_mut(..size) {
        answered(reading::read(line, part));
    }
    runs(&room);
}

// A refusal and a cut as records, in enough room and in too little.
fn record(r: Refusal) {
    if let Ok(place) = u16::try_from(r.place) {
        let mut room = [b'.'; 5];
        answered(reading::put_refusal(&mut room, r.number, place));
        runs(&room);
        let mut small = [b'.'; 3];
        answered(reading::put_refusal(&mut small, r.number, place));
        runs(&small);
    }
}

fn cut() {
    let mut room = [b'.'; 2];
    for size in [1, 0] {
        answered(reading::put_cut(&mut room[..size]));
        runs(&room);
    }
}

fn verdict(line: &[u8]) {
    match reading::verdict(line) {
        Ok(()) => say(b"fine "),
        Err(r) => {
            say(b"flawed ");
            record(r);
        }
    }
}

fn target(line: &[u8]) {
    say(b"target ");
    let s = reading::target_span(line);
    number(s.at);
    number(s.len);
    runs(reading::target(line));
}

fn show(line: &[u8], size: usize) {
    read(line, size);
    verdict(line);
    target(line);
    say(b"\n");
}

fn cases(input: &[u8]) {
    let mut at: usize = 0;
    // By the place: a case is read at several offsets from it.
    while at < input.len() {
        let Some(p) = part_at(input, at, 4, two_at(input, at, 2)) else {
            say(b"short\n");
            return;
        };
        show(&input[p.start..p.end], two_at(input, at, 0));
        at = p.end;
    }
}

fn main() {
    cut();
    say(b"\n");
    let mut all = io::large_buffer();
    let got = io::read_full(0, &mut all);
    cases(&all[..got]);
}
