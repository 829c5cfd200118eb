// Lists its input in parts of 7 bytes and prints what each call gave at once: the cuts of a capture change nothing that is printed.
#![tactic(auto)]

use joiner::Joiner;
use lister::{end_answer, next_answer};
use showing::{first, onward, say};
use text::Refusal;
use wording::records_text;

// Prints records, or that they are bad.
fn print(records: &[u8], text: &mut [u8]) {
    match records_text(records, text) {
        Ok(n) => first(text, n),
        Err(_) => say(b"bad records\n"),
    }
}

// Prints what stands in the room.
fn show(s: Result<Option<usize>, Refusal>, room: &[u8], text: &mut [u8]) {
    match s {
        Ok(None) => {}
        Ok(Some(n)) => {
            if let Some(records) = room.get(..n) {
                print(records, text);
            }
        }
        Err(_) => say(b"refused\n"),
    }
}

// Lists a part, call after call.
fn feed(
    mut state: Joiner,
    line: &mut [u8],
    part: &[u8],
    room: &mut [u8],
    text: &mut [u8],
) -> Joiner {
    let mut at: usize = 0;
    // By the place, which the call moves by what it used.
    while at < part.len() {
        let r = next_answer(state, line, &part[at..], room);
        state = r.state;
        show(r.stands, room, text);
        at = onward(at, r.used, part.len());
    }
    state
}

// Lists all of the input.
fn list_all(line: &mut [u8], room: &mut [u8], text: &mut [u8]) -> Joiner {
    let mut state = Joiner::new();
    let mut part = [0u8; 7];
    for _ in 0..u64::MAX {
        let got = io::read_full(0, &mut part);
        if got == 0 {
            return state;
        }
        state = feed(state, line, &part[..got], room, text);
    }
    state
}

fn main() {
    let mut line = [0u8; 1024];
    let mut room = [0u8; 399];
    let mut text = io::buffer();
    let state = list_all(&mut line, &mut room, &mut text);
    let s = end_answer(state, &mut room);
    show(s, &room, &mut text);
}
