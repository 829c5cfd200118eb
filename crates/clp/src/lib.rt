// The C face: functions on numbers and slices, as include/clp.h has them, each thin over a proved crate. The crate `clp_c` exports them.
#![tactic(auto)]

ghost use Rattle.std.specs.Prelude.{◌≡◌, ◌<◌, ◌≤◌, length};
ghost use Rattle.text.specs.Room.{fitted, filled};
ghost use Rattle.terms.specs.Signs.{meant};
ghost use Rattle.carried.specs.Carried.{yield_at};
ghost use Rattle.tree.specs.Tree.{check_tree};
ghost use Rattle.tree.specs.Path.{path_answer, path_room};
ghost use Rattle.tree.specs.Resolve.{resolve_of, resolve_list};
ghost use Rattle.reading.specs.Reading.{reading_of};
ghost use Rattle.reading.specs.Records.{answer_in, room_in, target_in};
ghost use Rattle.wording.specs.Words.{wording_of, text_answer, text_room};
ghost use Rattle.canonical.specs.Canonical.{writing_answer, writing_room};
ghost use Rattle.replies.specs.Reading.{read_answer, read_room};
ghost use Rattle.replies.specs.Items.{value_answer, value_room};
ghost use Rattle.replying.specs.Writing.{write_answer, write_room};
ghost use Rattle.clp.specs.State.{mark, state_number, state_of};
ghost use Rattle.clp.specs.Face.{told, answer_of, with, no_call, join_face, join_buffer, end_answer, end_face, term, term_of, checked_of, resolved_of, part_face, stands_face, list_face, list_buffer, list_room, list_end_face, list_end_room};

use carried::yield_at;
use joiner::{End, Joiner};
use terms::Span;
use text::Refusal;
use tree::Resolved;

// What every function answers: number 0 and a value, or a refusal's number and its place.
#[repr(C)]
#[derive(Clone, Copy)]
pub struct ClpAnswer {
    pub number: u64,
    pub value: u64,
}

// The answer of a call that joins: with how many bytes were used, and the state for the next call.
#[repr(C)]
#[derive(Clone, Copy)]
pub struct ClpJoined {
    pub number: u64,
    pub value: u64,
    pub used: u64,
    pub state: u64,
}

// A term: where it begins, and its length.
#[repr(C)]
#[derive(Clone, Copy)]
pub struct ClpTerm {
    pub number: u64,
    pub value: u64,
    pub length: u64,
}

// A part of a line.
#[repr(C)]
#[derive(Clone, Copy)]
pub struct ClpPart {
    pub position: u64,
    pub length: u64,
}

// The value that is no length.
const NONE: u64 = 18446744073709551615;

// ---- answers

fn gives(value: u64) -> ClpAnswer
    ensures { result ≡ told 0 value }
{
    ClpAnswer { number: 0, value }
}

// A refusal: its number and its place.
impl From<Refusal> for ClpAnswer {
    fn from(flaw: Refusal) -> Self
        ensures { result ≡ told flaw.number flaw.place }
    {
        ClpAnswer {
            number: u64::from(flaw.number),
            value: flaw.place as u64,
        }
    }
}

// How many bytes a function wrote, or its refusal.
impl From<Result<usize, Refusal>> for ClpAnswer {
    fn from(written: Result<usize, Refusal>) -> Self
        ensures { result ≡ answer_of written }
    {
        match written {
            Ok(n) => gives(n as u64),
            Err(flaw) => ClpAnswer::from(flaw),
        }
    }
}

// What is at the end of a capture, or the refusal.
impl From<Result<End, Refusal>> for ClpAnswer {
    fn from(end: Result<End, Refusal>) -> Self
        ensures { result ≡ end_answer end }
    {
        match end {
            Ok(End::Nothing) => gives(0),
            Ok(End::Cut) => gives(1),
            Err(flaw) => ClpAnswer::from(flaw),
        }
    }
}

// The instances that a target addresses, or the refusal.
impl From<Result<Resolved, Refusal>> for ClpAnswer {
    fn from(resolved: Result<Resolved, Refusal>) -> Self
        ensures { result ≡ resolved_of resolved }
    {
        match resolved {
            Ok(Resolved::Session) => gives(NONE),
            Ok(Resolved::Nodes(n)) => gives(n as u64),
            Err(flaw) => ClpAnswer::from(flaw),
        }
    }
}

// The check of a tree, or the place of its first bad record, which is refused as 15.
impl From<Result<(), usize>> for ClpAnswer {
    fn from(checked: Result<(), usize>) -> Self
        ensures { result ≡ checked_of checked }
    {
        match checked {
            Ok(()) => gives(0),
            Err(place) => ClpAnswer::from(Refusal { number: 15, place }),
        }
    }
}

// How many bytes a line or its records have, or the refusal; `none` where there are none.
fn some_of(none: u64, given: Result<Option<usize>, Refusal>) -> ClpAnswer
    ensures { result ≡ stands_face none given }
{
    match given {
        Ok(Some(n)) => gives(n as u64),
        Ok(None) => gives(none),
        Err(flaw) => ClpAnswer::from(flaw),
    }
}

// A call that is not to be: its room or its state is none.
fn no_answer() -> ClpAnswer
    ensures { result ≡ told 19 0 }
{
    ClpAnswer::from(Refusal {
        number: 19,
        place: 0,
    })
}

// ---- the joiner's state as a number

fn mark(flag: bool, weight: u64) -> u64
    ensures value { result ≡ mark flag weight }
    ensures upper_bound { result ≤ weight }
{
    if flag {
        return weight;
    }
    0
}

#[tactic(auto, unfolding(crate::specs::State::state_number))]
fn number_of(s: Joiner) -> u64
    requires { s.held < 2048 }
    ensures { result ≡ state_number s }
{
    s.held as u64 + mark(s.grave, 2048) + mark(s.cr, 4096) + mark(s.over, 8192)
}

fn state_of(n: u64) -> Joiner
    ensures { result ≡ state_of n }
{
    Joiner {
        held: (n % 2048) as usize,
        grave: n / 2048 % 2 == 1,
        cr: n / 4096 % 2 == 1,
        over: n / 8192 % 2 == 1,
    }
}

// An answer with the bytes used and the state.
fn joined(a: ClpAnswer, used: usize, s: Joiner) -> ClpJoined
    requires { s.held < 2048 }
    ensures { result ≡ with a used (state_number s) }
{
    ClpJoined {
        number: a.number,
        value: a.value,
        used: used as u64,
        state: number_of(s),
    }
}

// Refused as 19, with nothing used and the state as it was.
fn no_call(state: u64) -> ClpJoined
    ensures { result ≡ no_call state }
{
    ClpJoined {
        number: 19,
        value: 0,
        used: 0,
        state,
    }
}

// Joins a part of a capture.
pub fn clp_join(state: u64, buffer: &mut [u8], part: &[u8]) -> ClpJoined
    ensures value { result ≡ join_face state buffer.old part.now }
    ensures buffer_after { buffer.new ≡ join_buffer state buffer.old part.now }
{
    if 16383 < state {
        return no_call(state);
    }
    let j = state_of(state).join(buffer, part);
    joined(some_of(NONE, j.outcome), j.used, j.state)
}

// The end of a capture.
pub fn clp_end(state: u64) -> ClpAnswer
    ensures { result ≡ end_face state }
{
    if 16383 < state {
        return no_answer();
    }
    ClpAnswer::from(state_of(state).end())
}

// ---- reading

// Writes the records of a line.
pub fn clp_read(line: &[u8], room: &mut [u8]) -> ClpAnswer
    ensures value { result ≡ answer_of (answer_in (length room.old) (reading_of line.now)) }
    ensures room_after { room.new ≡ room_in room.old (reading_of line.now) }
{
    ClpAnswer::from(reading::read(line, room))
}

fn part_of(s: Span) -> ClpPart
    ensures { result ≡ part_face s }
{
    ClpPart {
        position: s.at as u64,
        length: s.len as u64,
    }
}

// The target's own part of a line.
pub fn clp_target(line: &[u8]) -> ClpPart
    ensures { result ≡ part_face (target_in (reading_of line.now)) }
{
    part_of(reading::target_span(line))
}

// ---- terms

// An answer with the length of a term.
fn term(a: ClpAnswer, length: usize) -> ClpTerm
    ensures { result ≡ term a length }
{
    ClpTerm {
        number: a.number,
        value: a.value,
        length: length as u64,
    }
}

fn term_of(yielded: Result<Option<Span>, Refusal>) -> ClpTerm
    ensures { result ≡ term_of yielded }
{
    match yielded {
        Ok(Some(found)) => term(gives(found.at as u64), found.len),
        Ok(None) => term(gives(NONE), 0),
        Err(flaw) => term(ClpAnswer::from(flaw), 0),
    }
}

// The term at or after a place.
pub fn clp_next_term(line: &[u8], place: usize) -> ClpTerm
    ensures { result ≡ term_of (yield_at line.now place) }
{
    term_of(yield_at(line, place))
}

// Writes a line canonically.
pub fn clp_canonical(line: &[u8], room: &mut [u8]) -> ClpAnswer
    ensures value { result ≡ answer_of (writing_answer (length room.old) (reading_of line.now)) }
    ensures room_after { room.new ≡ writing_room room.old (reading_of line.now) }
{
    ClpAnswer::from(canonical::canonical(line, room))
}

// Writes the bytes that a text stands for: quote marks taken out, each escaped byte for its pair.
pub fn clp_meant(text: &[u8], room: &mut [u8]) -> ClpAnswer
    ensures value { result ≡ answer_of (fitted (length room.old) (meant text.now)) }
    ensures room_after { room.new ≡ filled room.old (meant text.now) }
{
    ClpAnswer::from(terms::write_meant(text, room))
}

// ---- the tree

// Checks a tree.
pub fn clp_check_tree(tree: &[u8]) -> ClpAnswer
    ensures { result ≡ checked_of (check_tree tree.now) }
{
    ClpAnswer::from(tree::check(tree))
}

// The instances that a target's text addresses from a default target.
pub fn clp_resolve(text: &[u8], tree: &[u8], default: usize, list: &mut [u16]) -> ClpAnswer
    ensures value { result ≡ resolved_of (resolve_of (length list.old) text.now tree.now default) }
    ensures list_after { list.new ≡ resolve_list list.old text.now tree.now default }
{
    ClpAnswer::from(tree::resolve(text, tree, default, list))
}

// Writes the full path of a node.
pub fn clp_full_path(tree: &[u8], node: usize, room: &mut [u8]) -> ClpAnswer
    ensures value { result ≡ answer_of (path_answer (length room.old) tree.now node) }
    ensures room_after { room.new ≡ path_room room.old tree.now node }
{
    ClpAnswer::from(tree::full_path(tree, node, room))
}

// ---- replies

// Reads a board's reply: writes its records.
pub fn clp_read_reply(reply: &[u8], room: &mut [u8]) -> ClpAnswer
    ensures value { result ≡ answer_of (read_answer (length room.old) reply.now) }
    ensures room_after { room.new ≡ read_room room.old reply.now }
{
    ClpAnswer::from(replies::read(reply, room))
}

// Writes the items that records name in a text, as a reply.
pub fn clp_write_reply(records: &[u8], text: &[u8], room: &mut [u8]) -> ClpAnswer
    ensures value { result ≡ answer_of (write_answer (length room.old) records.now text.now) }
    ensures room_after { room.new ≡ write_room room.old records.now text.now }
{
    ClpAnswer::from(replying::write(records, text, room))
}

// Writes the bytes that a value, as a reply has it, stands for.
pub fn clp_reply_value(raw: &[u8], room: &mut [u8]) -> ClpAnswer
    ensures value { result ≡ answer_of (value_answer (length room.old) raw.now) }
    ensures room_after { room.new ≡ value_room room.old raw.now }
{
    ClpAnswer::from(replies::value(raw, room))
}

// ---- a lister

// Writes records as text.
pub fn clp_records_text(records: &[u8], room: &mut [u8]) -> ClpAnswer
    ensures value { result ≡ answer_of (text_answer (length room.old) (wording_of records.now)) }
    ensures room_after { room.new ≡ text_room room.old (wording_of records.now) }
{
    ClpAnswer::from(wording::records_text(records, room))
}

// Joins a part of a capture, and writes the records of the line that it ended.
pub fn clp_list(state: u64, buffer: &mut [u8], part: &[u8], room: &mut [u8]) -> ClpJoined
    ensures value { result ≡ list_face state buffer.old part.now room.old }
    ensures buffer_after { buffer.new ≡ list_buffer state buffer.old part.now room.old }
    ensures room_after { room.new ≡ list_room state buffer.old part.now room.old }
{
    if 16383 < state {
        return no_call(state);
    }
    let l = lister::next_answer(state_of(state), buffer, part, room);
    joined(some_of(NONE, l.stands), l.used, l.state)
}

// Writes the record that the end of a capture is.
pub fn clp_list_end(state: u64, room: &mut [u8]) -> ClpAnswer
    ensures value { result ≡ list_end_face state (length room.old) }
    ensures room_after { room.new ≡ list_end_room state room.old }
{
    if 16383 < state {
        return no_answer();
    }
    some_of(0, lister::end_answer(state_of(state), room))
}
