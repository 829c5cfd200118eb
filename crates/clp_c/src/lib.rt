// The library that C links: the functions of the crate `clp`, exported under their names, each with the clauses that it has there.
#![tactic(auto)]

ghost use Rattle.std.specs.Prelude.{◌≡◌, length};
ghost use Rattle.text.specs.Room.{fitted, filled};
ghost use Rattle.terms.specs.Signs.{meant};
ghost use Rattle.carried.specs.Carried.{yield_at};
ghost use Rattle.tree.specs.Tree.{check_tree};
ghost use Rattle.tree.specs.Path.{path_answer, path_room};
ghost use Rattle.tree.specs.Resolve.{resolve_of, resolve_list};
ghost use Rattle.reading.specs.Reading.{reading_of};
ghost use Rattle.reading.specs.Records.{answer_in, room_in, target_in};
ghost use Rattle.wording.specs.Words.{wording_of, text_answer, text_room};
ghost use Rattle.canonical.specs.Canonical.{writing_answer, writing_room};
ghost use Rattle.replies.specs.Reading.{read_answer, read_room};
ghost use Rattle.replies.specs.Items.{value_answer, value_room};
ghost use Rattle.replying.specs.Writing.{write_answer, write_room};
ghost use Rattle.clp.specs.Face.{answer_of, join_face, join_buffer, end_face, term_of, checked_of, resolved_of, part_face, list_face, list_buffer, list_room, list_end_face, list_end_room};

use clp::{ClpAnswer, ClpJoined, ClpPart, ClpTerm};

// Joins a part of a capture.
#[unsafe(no_mangle)]
pub extern "C" fn clp_join(state: u64, buffer: &mut [u8], part: &[u8]) -> ClpJoined
    ensures value { result ≡ join_face state buffer.old part.now }
    ensures buffer_after { buffer.new ≡ join_buffer state buffer.old part.now }
{
    clp::clp_join(state, buffer, part)
}

// The end of a capture.
#[unsafe(no_mangle)]
pub extern "C" fn clp_end(state: u64) -> ClpAnswer
    ensures { result ≡ end_face state }
{
    clp::clp_end(state)
}

// Writes the records of a line.
#[unsafe(no_mangle)]
pub extern "C" fn clp_read(line: &[u8], room: &mut [u8]) -> ClpAnswer
    ensures value { result ≡ answer_of (answer_in (length room.old) (reading_of line.now)) }
    ensures room_after { room.new ≡ room_in room.old (reading_of line.now) }
{
    clp::clp_read(line, room)
}

// The target's own part of a line.
#[unsafe(no_mangle)]
pub extern "C" fn clp_target(line: &[u8]) -> ClpPart
    ensures { result ≡ part_face (target_in (reading_of line.now)) }
{
    clp::clp_target(line)
}

// The term at or after a place.
#[unsafe(no_mangle)]
pub extern "C" fn clp_next_term(line: &[u8], place: usize) -> ClpTerm
    ensures { result ≡ term_of (yield_at line.now place) }
{
    clp::clp_next_term(line, place)
}

// Writes a line canonically.
#[unsafe(no_mangle)]
pub extern "C" fn clp_canonical(line: &[u8], room: &mut [u8]) -> ClpAnswer
    ensures value { result ≡ answer_of (writing_answer (length room.old) (reading_of line.now)) }
    ensures room_after { room.new ≡ writing_room room.old (reading_of line.now) }
{
    clp::clp_canonical(line, room)
}

// Writes the bytes that a text stands for: quote marks taken out, each escaped byte for its pair.
#[unsafe(no_mangle)]
pub extern "C" fn clp_meant(text: &[u8], room: &mut [u8]) -> ClpAnswer
    ensures value { result ≡ answer_of (fitted (length room.old) (meant text.now)) }
    ensures room_after { room.new ≡ filled room.old (meant text.now) }
{
    clp::clp_meant(text, room)
}

// Checks a tree.
#[unsafe(no_mangle)]
pub extern "C" fn clp_check_tree(tree: &[u8]) -> ClpAnswer
    ensures { result ≡ checked_of (check_tree tree.now) }
{
    clp::clp_check_tree(tree)
}

// The instances that a target's text addresses from a default target.
#[unsafe(no_mangle)]
pub extern "C" fn clp_resolve(
    text: &[u8],
    tree: &[u8],
    default: usize,
    list: &mut [u16],
) -> ClpAnswer
    ensures value { result ≡ resolved_of (resolve_of (length list.old) text.now tree.now default) }
    ensures list_after { list.new ≡ resolve_list list.old text.now tree.now default }
{
    clp::clp_resolve(text, tree, default, list)
}

// Writes the full path of a node.
#[unsafe(no_mangle)]
pub extern "C" fn clp_full_path(tree: &[u8], node: usize, room: &mut [u8]) -> ClpAnswer
    ensures value { result ≡ answer_of (path_answer (length room.old) tree.now node) }
    ensures room_after { room.new ≡ path_room room.old tree.now node }
{
    clp::clp_full_path(tree, node, room)
}

// Reads a board's reply: writes its records.
#[unsafe(no_mangle)]
pub extern "C" fn clp_read_reply(reply: &[u8], room: &mut [u8]) -> ClpAnswer
    ensures value { result ≡ answer_of (read_answer (length room.old) reply.now) }
    ensures room_after { room.new ≡ read_room room.old reply.now }
{
    clp::clp_read_reply(reply, room)
}

// Writes the items that records name in a text, as a reply.
#[unsafe(no_mangle)]
pub extern "C" fn clp_write_reply(records: &[u8], text: &[u8], room: &mut [u8]) -> ClpAnswer
    ensures value { result ≡ answer_of (write_answer (length room.old) records.now text.now) }
    ensures room_after { room.new ≡ write_room room.old records.now text.now }
{
    clp::clp_write_reply(records, text, room)
}

// Writes the bytes that a value, as a reply has it, stands for.
#[unsafe(no_mangle)]
pub extern "C" fn clp_reply_value(raw: &[u8], room: &mut [u8]) -> ClpAnswer
    ensures value { result ≡ answer_of (value_answer (length room.old) raw.now) }
    ensures room_after { room.new ≡ value_room room.old raw.now }
{
    clp::clp_reply_value(raw, room)
}

// Writes records as text.
#[unsafe(no_mangle)]
pub extern "C" fn clp_records_text(records: &[u8], room: &mut [u8]) -> ClpAnswer
    ensures value { result ≡ answer_of (text_answer (length room.old) (wording_of records.now)) }
    ensures room_after { room.new ≡ text_room room.old (wording_of records.now) }
{
    clp::clp_records_text(records, room)
}

// Joins a part of a capture, and writes the records of the line that it ended.
#[unsafe(no_mangle)]
pub extern "C" fn clp_list(state: u64, buffer: &mut [u8], part: &[u8], room: &mut [u8]) -> ClpJoined
    ensures value { result ≡ list_face state buffer.old part.now room.old }
    ensures buffer_after { buffer.new ≡ list_buffer state buffer.old part.now room.old }
    ensures room_after { room.new ≡ list_room state buffer.old part.now room.old }
{
    clp::clp_list(state, buffer, part, room)
}

// Writes the record that the end of a capture is.
#[unsafe(no_mangle)]
pub extern "C" fn clp_list_end(state: u64, room: &mut [u8]) -> ClpAnswer
    ensures value { result ≡ list_end_face state (length room.old) }
    ensures room_after { room.new ≡ list_end_room state room.old }
{
    clp::clp_list_end(state, room)
}
