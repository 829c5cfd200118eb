// Reads lines from standard input, each ended by LF, and prints the answer of writing each canonically: in much room, with the writing and the three bytes
// after it; then in room of exactly the writing's size, and in one byte less, with all that the room holds. Room is filled with dots before.
#![tactic(auto)]

use showing::{answered, first, say, split_line};

// In all of this room.
fn into(line: &[u8], room: &mut [u8]) {
    answered(canonical::canonical(line, room));
    say(room);
    say(b"\n");
}

// In the first n bytes of this room.
fn sized(line: &[u8], room: &mut [u8], n: usize) {
    if let Some(part) = room.get_mut(..n) {
        into(line, part);
    }
}

fn exact(line: &[u8], n: usize) {
    say(b"exact ");
    let mut room = [b'.'; 3000];
    sized(line, &mut room, n);
}

fn short(line: &[u8], n: usize) {
    if let Some(less) = n.checked_sub(1) {
        say(b"short ");
        let mut room = [b'.'; 3000];
        sized(line, &mut room, less);
    }
}

// The first n bytes of this room.
fn held(room: &[u8], n: usize) {
    first(room, n);
    say(b"\n");
}

fn show(line: &[u8]) {
    let mut room = [b'.'; 3000];
    let a = canonical::canonical(line, &mut room);
    answered(a);
    match a {
        Ok(n) => {
            if n < 2997 {
                held(&room, n + 3);
            }
            exact(line, n);
            short(line, n);
        }
        Err(_) => held(&room, 3),
    }
}

fn cases(input: &[u8]) {
    let mut rest = input;
    while let Some((line, more)) = split_line(rest) {
        show(line);
        rest = more;
    }
}

fn main() {
    let mut all = io::large_buffer();
    let got = io::read_full(0, &mut all);
    cases(&all[..got]);
}
