// Reads cases from standard input and writes what crates `replies` and `replying` say of each. A case is a kind, 1 a reply that is read, 2 records that are
// written, 3 a raw value; the size of the room, two bytes, high first; then the records and the text. Each of these is a number of pieces, one byte, and the
// pieces: how often a piece stands and how long it is, two bytes each, and its bytes. All room is lent full of dots; what it then holds is written as runs of
// equal bytes.
#![tactic(auto)]

ghost use Rattle.std.specs.Prelude.{◌≤◌, ◌<◌, length, IfSome};

use showing::{answered, part_at, runs, say, two_at};
use text::Refusal;

// A text that was put together: where it ends in the input, and how many bytes it has.
#[derive(Clone, Copy)]
struct Pieced {
    end: usize,
    len: usize,
}

// A piece so often from a place of the room on, as far as the room goes; tells where the next one begins.
fn repeat(out: &mut [u8], at: usize, piece: &[u8], times: usize) -> usize
    requires { at ≤ length out.old }
    ensures { result ≤ length out.new }
{
    let mut w = at;
    for _ in 0..times {
        if out.len() - w < piece.len() {
            return w;
        }
        text::copy(out, w, piece);
        w += piece.len();
    }
    w
}

// Puts a text together from a place of the input on, if the input is not cut before its end.
fn put_together(input: &[u8], at: usize, out: &mut [u8]) -> Option<Pieced>
    ensures { IfSome result (λ p. (p.len ≤ length out.new) × (p.end ≤ length input.now) × (at < p.end)) }
{
    let pieces = *input.get(at)?;
    let mut end = at + 1;
    let mut len: usize = 0;
    for _ in 0..pieces {
        let p = part_at(input, end, 4, two_at(input, end, 2))?;
        let times = two_at(input, end, 0);
        end = p.end;
        len = repeat(out, len, &input[p.start..p.end], times);
    }
    Some(Pieced { end, len })
}

// What is said of a case; 0 at 0 where there is no such kind.
fn said(kind: u8, records: &[u8], text: &[u8], room: &mut [u8]) -> Result<usize, Refusal> {
    match kind {
        1 => replies::read(text, room),
        2 => replying::write(records, text, room),
        3 => replies::value(text, room),
        _ => Err(Refusal {
            number: 0,
            place: 0,
        }),
    }
}

fn answer(kind: u8, records: &[u8], text: &[u8], room: &mut [u8]) {
    answered(said(kind, records, text, room));
    runs(room);
    say(b"\n");
}

// The case that begins at a place, if the input is not cut before its end; tells where the next one begins.
fn case(input: &[u8], at: usize, records: &mut [u8], text: &mut [u8]) -> Option<usize>
    ensures { IfSome result (λ n. (n ≤ length input.now) × (at < n)) }
{
    let head = part_at(input, at, 3, 0)?;
    let r = put_together(input, head.end, records)?;
    let t = put_together(input, r.end, text)?;
    let size = two_at(input, at, 1);
    let mut room = [b'.'; 65535];
    answer(
        input[at],
        &records[..r.len],
        &text[..t.len],
        &mut room[..size],
    );
    Some(t.end)
}

fn cases(input: &[u8], records: &mut [u8], text: &mut [u8]) {
    let mut at: usize = 0;
    // By the place: a case is read at several offsets from it.
    while at < input.len() {
        let Some(next) = case(input, at, records, text) else {
            say(b"cut\n");
            return;
        };
        at = next;
    }
}

fn main() {
    let mut all = [0u8; 262144];
    let mut records = [0u8; 200000];
    let mut text = [0u8; 200000];
    let got = io::read_full(0, &mut all);
    cases(&all[..got], &mut records, &mut text);
}
