// What the programs that run cases share: printing, and the way through an input of lines or of cases. Nothing here is a rule of the protocol.
#![tactic(auto)]

ghost use Rattle.std.specs.Prelude.{◌≡◌, ◌+◌, ◌-◌, ◌≤◌, ◌<◌, min, length};
ghost use Rattle.showing.specs.Ways.{line_len, LineIs, onward_to, PartIs, TwoIs};

use text::Refusal;

// Standard output.
const STDOUT: i32 = 1;

// A text.
pub fn say(t: &[u8]) {
    io::write_all(STDOUT, t);
}

// A number, and a space.
pub fn number(n: usize) {
    io::print_decimal(STDOUT, n as u64);
    say(b" ");
}

// A flag as a number.
pub fn flag(b: bool) {
    number(usize::from(b));
}

// A case's title.
pub fn title(n: usize) {
    say(b"case ");
    number(n);
    say(b"\n");
}

// A refusal: its number and its place.
pub fn refusal(r: Refusal) {
    say(b"refused ");
    number(usize::from(r.number));
    number(r.place);
}

// The answer of a function that writes into lent room.
pub fn answered(a: Result<usize, Refusal>) {
    match a {
        Ok(n) => {
            say(b"wrote ");
            number(n);
        }
        Err(r) => refusal(r),
    }
}

// The first n bytes of a room, or none where it has fewer.
pub fn first(room: &[u8], n: usize) {
    if let Some(t) = room.get(..n) {
        say(t);
    }
}

// Values as runs of equal ones: how many, of which number.
pub fn runs<T: Copy + PartialEq + Into<usize>>(values: &[T]) {
    for run in values.chunk_by(|a, b| a == b) {
        say(b"| ");
        number(run.len());
        number(run[0].into());
    }
}

// How many bytes stand from a place on before the next LF, or before the end.
pub fn line_len(input: &[u8], at: usize) -> usize
    ensures value { result ≡ line_len input.now at }
    ensures upper_bound { result ≤ length input.now - at }
{
    let rest = &input[at.min(input.len())..];
    rest.iter().position(|b| *b == b'\n').unwrap_or(rest.len())
}

// The line that an input begins with, without its LF, and what follows; none where nothing is left.
pub fn split_line(input: &[u8]) -> Option<(&[u8], &[u8])>
    ensures { LineIs input.now result }
{
    if input.is_empty() {
        return None;
    }
    let n = line_len(input, 0);
    Some((&input[..n], input.get(n + 1..).unwrap_or(&[])))
}

// A part of an input, from `start` to `end`. A type of its own, since a `Range` is not `Copy`.
#[derive(Clone, Copy)]
pub struct Stretch {
    pub start: usize,
    pub end: usize,
}

// The `len` bytes that begin `skip` bytes after a place: where they stand, if the input is not cut before their end.
pub fn part_at(input: &[u8], at: usize, skip: usize, len: usize) -> Option<Stretch>
    ensures { PartIs input.now at skip len result }
{
    let start = at.checked_add(skip)?;
    let end = start.checked_add(len)?;
    if end <= input.len() {
        Some(Stretch { start, end })
    } else {
        None
    }
}

// The number in the two bytes, high first, that begin `skip` bytes after a place; 0 where the input is cut before their end.
pub fn two_at(input: &[u8], at: usize, skip: usize) -> usize
    ensures value { TwoIs input.now at skip result }
    ensures upper_bound { result < 65536 }
{
    match part_at(input, at, skip, 2) {
        Some(p) => text::pair(input[p.start], input[p.start + 1]),
        None => 0,
    }
}

// Where to go on in a part of `len` bytes after a call that used some from a place on: its end where the call used none, or more than are left.
pub fn onward(at: usize, used: usize, len: usize) -> usize
    ensures value { result ≡ onward_to at used len }
    ensures upper_bound { result ≤ len }
    ensures lower_bound { min (at + 1) len ≤ result }
{
    if used == 0 {
        len
    } else {
        at.saturating_add(used).min(len)
    }
}
