// A lister: joins a part of a capture and writes the records of the line that it ended.
#![tactic(auto)]

ghost use Rattle.std.specs.Prelude.{◌≡◌, ◌≤◌, length};
ghost use Rattle.text.specs.Room.{wrote};
ghost use Rattle.reading.specs.Reading.{reading_of};
ghost use Rattle.reading.specs.Records.{refusal_record, listed_in};
ghost use Rattle.joiner.specs.Join.{end_of};
ghost use Rattle.lister.specs.Lister.{listed, call_of, end_stands, end_room};
ghost use Rattle.lister.specs.Listing.{stands_of, outcome_stands, outcome_room, Ready};

use joiner::{End, Joiner};
use text::Refusal;

// What a call of the lister gives: the state, how many bytes were used, and how many bytes of records now stand in the room, none where nothing does yet; or a
// refusal.
#[derive(Clone, Copy)]
pub struct Listed {
    pub state: Joiner,
    pub used: usize,
    pub stands: Result<Option<usize>, Refusal>,
}

// The record of a refusal, in room for it; tells how many bytes it has.
fn put_refused(room: &mut [u8], refusal: Refusal) -> usize
    requires in_bounds { 4 ≤ length room.old }
    requires place_bound { refusal.place ≤ 65535 }
    ensures { (result ≡ 4) × (room.new ≡ wrote room.old (refusal_record refusal.number refusal.place)) }
{
    let _ = reading::put_refusal(room, refusal.number, refusal.place as u16);
    4
}

// The records of a line, or its refusal's, in room for a whole reading; tells how many bytes they have.
fn put_line(line: &[u8], room: &mut [u8]) -> usize
    requires { 399 ≤ length room.old }
    ensures { (result ≡ length (listed_in (reading_of line.now))) × (room.new ≡ wrote room.old (listed_in (reading_of line.now))) }
{
    match reading::read(line, room) {
        Ok(n) => n,
        Err(refusal) => put_refused(room, refusal),
    }
}

// What a call of the joiner gave, as records in room for a whole reading.
fn put_outcome(
    outcome: Result<Option<usize>, Refusal>,
    buffer: &[u8],
    room: &mut [u8],
) -> Result<Option<usize>, Refusal>
    requires { Ready outcome buffer.now room.old }
    ensures { (result ≡ outcome_stands outcome buffer.now) × (room.new ≡ outcome_room room.old outcome buffer.now) }
{
    match outcome {
        Ok(None) => Ok(None),
        Ok(Some(n)) => Ok(Some(put_line(&buffer[..n], room))),
        Err(refusal) if refusal.number == 19 => Err(refusal),
        Err(refusal) => Ok(Some(put_refused(room, refusal))),
    }
}

// Takes the bytes of a part, up to and including the one that ends a line, or all of them; what then stands in the room are that line's records.
pub fn next_answer(state: Joiner, buffer: &mut [u8], part: &[u8], room: &mut [u8]) -> Listed
    ensures value { result ≡ (call_of state buffer.old part.now room.old).answer }
    ensures buffer_after { buffer.new ≡ (call_of state buffer.old part.now room.old).buffer }
    ensures room_after { room.new ≡ (call_of state buffer.old part.now room.old).room }
{
    if room.len() < 399 {
        return Listed {
            state,
            used: 0,
            stands: Err(Refusal {
                number: 19,
                place: 0,
            }),
        };
    }
    let j = state.join(buffer, part);
    Listed {
        state: j.state,
        used: j.used,
        stands: put_outcome(j.outcome, buffer, room),
    }
}

// The end of the capture: a cut as its record.
pub fn end_answer(state: Joiner, room: &mut [u8]) -> Result<Option<usize>, Refusal>
    ensures value { result ≡ end_stands (length room.old) (end_of state) }
    ensures room_after { room.new ≡ end_room room.old (end_of state) }
{
    match state.end()? {
        End::Nothing => Ok(None),
        End::Cut => Ok(Some(reading::put_cut(room)?)),
    }
}
