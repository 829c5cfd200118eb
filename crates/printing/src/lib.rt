// A part of a capture as text: the records of each line that ends in it, as text, in lent room.
#![tactic(auto)]

ghost use Rattle.std.specs.Prelude.{◌≡◌, true, ◌≤◌, length};
ghost use Rattle.text.specs.Room.{wrote};
ghost use Rattle.joiner.specs.Step.{reachable};
ghost use Rattle.joiner.specs.Join.{join_of};
ghost use Rattle.lister.specs.Lister.{fit};
ghost use Rattle.printing.specs.Printing.{longest, may_call, may_print, ran_text, part_print, records_text};
ghost use Rattle.printing.specs.Steps.{standing, Stood, lines_in, called_by};

use joiner::Joiner;
use lister::next_answer;
use text::Refusal;
use wording::records_text;

// What printing a part gives: the state, how many bytes were used, how many lines they ended, and how many bytes of text were written.
#[derive(Clone, Copy)]
pub struct Printed {
    pub state: Joiner,
    pub used: usize,
    pub lines: usize,
    pub answer: Result<usize, Refusal>,
}

// What one call of the joiner gives: the state, how many bytes were used, how many lines they ended, and how many bytes of text those are.
#[derive(Clone, Copy)]
struct Called {
    state: Joiner,
    used: usize,
    lines: usize,
    text: usize,
}

// As much text as the records of any line are.
const LONGEST: usize = 2394;

// Whether some capture leads to a state: at its end it is not refused.
fn possible(state: Joiner) -> bool
    ensures { result ≡ reachable state }
{
    state.end().is_ok()
}

// Whether a part is printed: the line buffer and the state are the joiner's, and there is room for any line's text.
fn may_print(state: Joiner, buffer: &[u8], room: usize) -> bool
    ensures { result ≡ may_print state buffer.now room }
{
    buffer.len() == 1024 && possible(state) && LONGEST <= room
}

// Whether a call is made: bytes of the part are left, and room for any line's text.
fn may_call(left: usize, room: usize) -> bool
    ensures { result ≡ may_call left room }
{
    0 < left && LONGEST <= room
}

// The text of records in room for it; tells how many bytes it is.
fn put_text(records: &[u8], out: &mut [u8]) -> usize
    requires { length (records_text records.now) ≤ length out.old }
    ensures { (result ≡ length (records_text records.now)) × (out.new ≡ wrote out.old (records_text records.now)) }
{
    records_text(records, out).unwrap_or(0)
}

// The text of what stands in a room, in room for it; tells how many bytes it is.
fn put_stands(s: Result<Option<usize>, Refusal>, room: &[u8], out: &mut [u8]) -> usize
    requires stood { Stood s room.now }
    requires room_in_bounds { length (records_text (standing s room.now)) ≤ length out.old }
    ensures { (result ≡ length (records_text (standing s room.now))) × (out.new ≡ wrote out.old (records_text (standing s room.now))) }
{
    let Ok(Some(n)) = s else {
        return 0;
    };
    put_text(&room[..n], out)
}

// How many lines what stands in a room is of.
fn lines_in(s: Result<Option<usize>, Refusal>) -> usize
    ensures { result ≡ lines_in s }
{
    usize::from(matches!(s, Ok(Some(_))))
}

// One call of the joiner, and the text of the line that it ended at the start of the room for it.
fn print_call(
    state: Joiner,
    buffer: &mut [u8],
    part: &[u8],
    room: &mut [u8],
    out: &mut [u8],
) -> Called
    requires buffer_value { fit state buffer.old ≡ true }
    requires room_len { length room.old ≡ 399 }
    requires longest_in_bounds { longest ≤ length out.old }
    ensures value { result ≡ called_by (join_of state buffer.old part.now) }
    ensures buffer_after { buffer.new ≡ (join_of state buffer.old part.now).buffer }
    ensures out_after { out.new ≡ wrote out.old (ran_text (join_of state buffer.old part.now)) }
{
    let r = next_answer(state, buffer, part, room);
    Called {
        state: r.state,
        used: r.used,
        lines: lines_in(r.stands),
        text: put_stands(r.stands, room, out),
    }
}

// Call after call, as long as bytes of the part are left and room for any line's text; each call says how far it came, so no count runs ahead of them. State,
// buffer and part are three parameters, as `Joiner::join` has them.
fn print_calls(
    state: Joiner,
    buffer: &mut [u8],
    part: &[u8],
    room: &mut [u8],
    out: &mut [u8],
) -> Printed
    requires out_value { may_print state buffer.old (length out.old) ≡ true }
    requires room_len { length room.old ≡ 399 }
    ensures value { result ≡ (part_print state buffer.old part.now out.old).answer }
    ensures buffer_after { buffer.new ≡ (part_print state buffer.old part.now out.old).buffer }
    ensures out_after { out.new ≡ (part_print state buffer.old part.now out.old).out }
{
    let mut s = state;
    let mut at: usize = 0;
    let mut lines: usize = 0;
    let mut n: usize = 0;
    while may_call(part.len() - at, out.len() - n) {
        let r = print_call(s, buffer, &part[at..], room, &mut out[n..]);
        s = r.state;
        at += r.used;
        lines += r.lines;
        n += r.text;
    }
    Printed {
        state: s,
        used: at,
        lines,
        answer: Ok(n),
    }
}

// The text of the lines that end in a part, as far as room for a whole line's is left; less room than that at the start is refused as 19.
pub fn print_part(state: Joiner, buffer: &mut [u8], part: &[u8], out: &mut [u8]) -> Printed
    ensures value { result ≡ (part_print state buffer.old part.now out.old).answer }
    ensures buffer_after { buffer.new ≡ (part_print state buffer.old part.now out.old).buffer }
    ensures out_after { out.new ≡ (part_print state buffer.old part.now out.old).out }
{
    if !may_print(state, buffer, out.len()) {
        return Printed {
            state,
            used: 0,
            lines: 0,
            answer: Err(Refusal {
                number: 19,
                place: 0,
            }),
        };
    }
    // As many bytes as the records of any line have; `put_stands` goes by the part of it that a line's take.
    let mut room = [0u8; 399];
    print_calls(state, buffer, part, &mut room, out)
}
