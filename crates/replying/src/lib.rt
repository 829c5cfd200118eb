// A board's reply in keyword form, written from records.
#![tactic(auto)]

ghost use Rattle.std.specs.Prelude.{◌≡◌, ◌||◌, [], ◌+◌, ◌*◌, ◌<◌, ◌≤◌, length, set};
ghost use Rattle.std.proofs.lemmas.List.Edits.{sets};
ghost use Rattle.text.specs.Lists.{any_of};
ghost use Rattle.terms.specs.Signs.{raw, raws};
ghost use Rattle.terms.specs.Quotes.{in_quotes, closing};
ghost use Rattle.words.specs.Words.{reply_record_len};
ghost use Rattle.replies.specs.Lines.{is_end};
ghost use Rattle.replies.specs.Items.{item, group};
ghost use Rattle.replying.specs.Records.{field_at, part_at, record_told, asked_of};
ghost use Rattle.replying.specs.Writing.{value_line, line_of, turn_told, written_by, write_answer, write_room};
ghost use Rattle.replying.specs.Steps.{part_told, cue_told, told_by_cue, Held, HeldCue, led_by, capped, sized, weighed};

use replies::{begins_quote, is_end, is_keyword};
use text::{Refusal, copy, pair, put};

// What a record tells, by the parts of the text that it names.
#[derive(Clone, Copy)]
enum Cue<'a> {
    Item { keyword: &'a [u8], value: &'a [u8] },
    Group { name: &'a [u8] },
    Close,
    End,
}

// ---- records

// The two bytes at a place of a record as a number, high first.
fn field(rec: &[u8], at: usize) -> usize
    requires { at + 2 ≤ length rec.now }
    ensures { (result ≡ field_at rec.now at) × (result ≤ 65535) }
{
    pair(rec[at], rec[at + 1])
}

// The part of the text whose position and length stand at a place of a record; none where it reaches past the text.
fn part_at<'a>(rec: &[u8], at: usize, text: &'a [u8]) -> Option<&'a [u8]>
    requires { at + 4 ≤ length rec.now }
    ensures { part_told result ≡ part_at text.now rec.now at }
{
    let from = field(rec, at);
    text.get(from..from + field(rec, at + 2))
}

// How long a whole record is, by its kind. Those of a reply are asked for one by one: so each is known when this is compiled.
fn len_of(kind: u8) -> usize
    ensures { result ≡ reply_record_len kind }
{
    match kind {
        64 => words::reply_record_len(64),
        65 => words::reply_record_len(65),
        66 => words::reply_record_len(66),
        67 => words::reply_record_len(67),
        _ => words::reply_record_len(kind),
    }
}

// What the record tells that some bytes begin with; none where it is of no kind of a reply's, cut, or with a part past the text.
#[tactic(auto, unfolding(crate::specs::Records::record_told))]
fn cue_of<'a>(rec: &[u8], text: &'a [u8]) -> Option<Cue<'a>>
    requires { (0 < length rec.now) × (length text.now ≤ 65535) }
    ensures { (cue_told result ≡ record_told text.now rec.now) × Held result }
{
    if rec.len() < len_of(rec[0]) {
        return None;
    }
    match rec[0] {
        64 => Some(Cue::Item {
            keyword: part_at(rec, 1, text)?,
            value: part_at(rec, 5, text)?,
        }),
        65 => Some(Cue::Group {
            name: part_at(rec, 1, text)?,
        }),
        66 => Some(Cue::Close),
        67 => Some(Cue::End),
        _ => None,
    }
}

// ---- lines. Every writer tells where its text ends. What would stand past the room's end is not written, but counted.

// Whether a text holds CR or LF. The loop has no other way out, so that many bytes are compared at once.
// Not inlined: in `value_len` they were compared one by one, and writing a long value took seven times as long.
#[inline(never)]
fn has_end(v: &[u8]) -> bool
    ensures { result ≡ any_of is_end v.now }
{
    v.iter().fold(false, |any, b| any | is_end(*b))
}

// A text as it is, where it has room; tells whether it holds CR or LF. One loop does both, and has no other way out.
fn copy_within(out: &mut [u8], at: usize, v: &[u8]) -> bool
    requires { at + length v.now ≤ length out.old }
    ensures { (result ≡ any_of is_end v.now) × (out.new ≡ sets out.old at v.now) }
{
    let mut any = false;
    for (i, b) in v.iter().enumerate() {
        any = any | is_end(*b);
        out[at + i] = *b;
    }
    any
}

// The same wherever it ends.
fn copy_seeing(out: &mut [u8], at: usize, v: &[u8]) -> bool
    ensures { (result ≡ any_of is_end v.now) × (out.new ≡ sets out.old at v.now) }
{
    match out.len().checked_sub(at) {
        Some(left) if v.len() <= left => copy_within(out, at, v),
        _ => {
            copy(out, at, v);
            has_end(v)
        }
    }
}

// A text as it is.
fn put_text(out: &mut [u8], at: usize, s: &[u8]) -> usize
    requires { at + length s.now ≤ 18446744073709551615 }
    ensures { (result ≡ at + length s.now) × (out.new ≡ sets out.old at s.now) }
{
    copy(out, at, s);
    at + s.len()
}

fn put_byte(out: &mut [u8], at: usize, b: u8) -> usize
    requires { at < 18446744073709551615 }
    ensures { (result ≡ at + 1) × (out.new ≡ set out.old at b) }
{
    put(out, at, b);
    at + 1
}

// A byte in quotes: GRAVE stands before `"` and GRAVE.
fn put_in_quotes(out: &mut [u8], at: usize, b: u8) -> usize
    requires { at + 2 ≤ 18446744073709551615 }
    ensures { (result ≡ at + length (raw (in_quotes b))) × (out.new ≡ sets out.old at (raw (in_quotes b))) × (result ≤ at + 2) }
{
    match b {
        b'`' => put_text(out, at, b"``"),
        b'"' => put_text(out, at, b"`\""),
        _ => put_byte(out, at, b),
    }
}

// What follows the opening quote: the bytes of a text and the closing quote.
fn put_closing(out: &mut [u8], at: usize, s: &[u8]) -> usize
    requires { at + 2 * length s.now + 1 ≤ 18446744073709551615 }
    ensures { (result ≡ at + length (raws (closing s.now))) × (out.new ≡ sets out.old at (raws (closing s.now))) × (result ≤ at + 2 * length s.now + 1) }
{
    let mut w = at;
    for b in s {
        w = put_in_quotes(out, w, *b);
    }
    put_byte(out, w, b'"')
}

// A value, bare where it can be: it is written so, and where it can't be once more, in quotes.
fn put_value(out: &mut [u8], at: usize, v: &[u8]) -> usize
    requires { at + 2 * length v.now + 2 ≤ 18446744073709551615 }
    ensures { (result ≡ at + length (value_line v.now)) × (out.new ≡ sets out.old at (value_line v.now)) × (result ≤ at + 2 * length v.now + 2) }
{
    let ends = copy_seeing(out, at, v);
    if ends | begins_quote(v) {
        put(out, at, b'"');
        return put_closing(out, at + 1, v);
    }
    at + v.len()
}

// An item's line.
fn put_item(out: &mut [u8], at: usize, k: &[u8], v: &[u8]) -> usize
    requires { at + length k.now + 2 * length v.now + 4 ≤ 18446744073709551615 }
    ensures { (result ≡ at + length (line_of (item k.now v.now))) × (out.new ≡ sets out.old at (line_of (item k.now v.now))) }
{
    let w = put_text(out, at, k);
    put(out, w, b'=');
    let e = put_value(out, w + 1, v);
    put_byte(out, e, b'\n')
}

// The line that opens a group.
fn put_group(out: &mut [u8], at: usize, name: &[u8]) -> usize
    requires { at + length name.now + 12 ≤ 18446744073709551615 }
    ensures { (result ≡ at + length (line_of (group name.now))) × (out.new ≡ sets out.old at (line_of (group name.now))) }
{
    let w = put_text(out, at, b"begingroup=");
    let e = put_text(out, w, name);
    put_byte(out, e, b'\n')
}

// The line of what a record tells.
#[tactic(auto, unfolding(crate::specs::Writing::line_of, text::specs::Bytes::bytes))]
fn put_line(out: &mut [u8], at: usize, cue: Cue) -> usize
    requires { (at ≤ 65535) × HeldCue cue }
    ensures { (result ≡ at + length (line_of (told_by_cue cue.entry))) × (out.new ≡ sets out.old at (line_of (told_by_cue cue.entry))) }
{
    match cue {
        Cue::Item { keyword, value } => put_item(out, at, keyword, value),
        Cue::Group { name } => put_group(out, at, name),
        Cue::Close => put_text(out, at, b"endgroup\n"),
        Cue::End => put_text(out, at, b"endoutput\n"),
    }
}

// ---- how long lines are, counted and not written: this is done for all records before anything is written

// What follows the opening quote: GRAVE stands before each `"` and GRAVE, and the closing quote behind them all.
fn closing_len(s: &[u8]) -> usize
    requires { length s.now ≤ 65535 }
    ensures { (result ≡ length (raws (closing s.now))) × (result ≤ 2 * length s.now + 1) }
{
    s.len()
        + s.iter()
            .map(|b| usize::from(matches!(*b, b'`' | b'"')))
            .sum::<usize>()
        + 1
}

#[tactic(auto, unfolding(crate::specs::Writing::value_line, terms::specs::Signs::raws))]
fn value_len(v: &[u8]) -> usize
    requires { length v.now ≤ 65535 }
    ensures { (result ≡ length (value_line v.now)) × (result ≤ 2 * length v.now + 2) }
{
    if has_end(v) | begins_quote(v) {
        1 + closing_len(v)
    } else {
        v.len()
    }
}

#[tactic(auto, using(crate::proofs::LineLaws::item_length, crate::proofs::LineLaws::group_length, crate::proofs::LineLaws::ends_length))]
fn line_len(cue: Cue) -> usize
    requires { HeldCue cue }
    ensures { (result ≡ length (line_of (told_by_cue cue.entry))) × (result ≤ 300000) }
{
    match cue {
        Cue::Item { keyword, value } => keyword.len() + 2 + value_len(value),
        Cue::Group { name } => name.len() + 12,
        Cue::Close => 9,
        Cue::End => 10,
    }
}

// ---- what is refused

// What a record leads to at a depth: the next one at a depth, or none after the reply's end. Refused are an item whose keyword is none and a group whose type
// is no name (21), then a group in eight already (23), the end of a group where none is open (22), and the reply's end where one is (24).
fn judge(cue: Cue, depth: usize) -> Result<Option<usize>, u8>
    ensures { result ≡ led_by (turn_told (told_by_cue cue.entry)) depth }
{
    match cue {
        Cue::Item { keyword, value: _ } if is_keyword(keyword) => Ok(Some(depth)),
        Cue::Item { .. } => Err(21),
        Cue::Group { name } if !forms::is_name(name) => Err(21),
        Cue::Group { name: _ } if depth < 8 => Ok(Some(depth + 1)),
        Cue::Group { name: _ } => Err(23),
        Cue::Close if depth == 0 => Err(22),
        Cue::Close => Ok(Some(depth - 1)),
        Cue::End if depth == 0 => Ok(None),
        Cue::End => Err(24),
    }
}

// ---- the reply

// How many bytes are to be written with one line more. Past 65,535 no more are counted: records may be many.
#[tactic(auto, unfolding(crate::specs::Steps::capped))]
fn added(cue: Cue, n: usize) -> usize
    requires { HeldCue cue }
    ensures { result ≡ capped n (length (line_of (told_by_cue cue.entry))) }
{
    if 65535 < n { n } else { n + line_len(cue) }
}

// The answer for so many bytes to be written.
#[tactic(auto, unfolding(crate::specs::Steps::sized))]
fn sized(n: usize) -> Result<usize, Refusal>
    ensures { result ≡ sized n }
{
    if n <= 65535 {
        Ok(n)
    } else {
        Err(Refusal {
            number: 21,
            place: 0,
        })
    }
}

// Record by record: the first trouble, or how many bytes are to be written. By the place, which a refusal names; each record has its own length.
fn weigh(records: &[u8], text: &[u8]) -> Result<usize, Refusal>
    requires { length text.now ≤ 65535 }
    ensures { result ≡ weighed 0 (length records.now) 0 (asked_of records.now text.now) }
{
    let mut at: usize = 0;
    let mut depth: usize = 0;
    let mut n: usize = 0;
    while at < records.len() {
        let Some(cue) = cue_of(&records[at..], text) else {
            return Err(Refusal {
                number: 21,
                place: at,
            });
        };
        let next = judge(cue, depth).map_err(|number| Refusal { number, place: at })?;
        n = added(cue, n);
        let Some(d) = next else {
            return sized(n);
        };
        depth = d;
        at += len_of(records[at]);
    }
    Err(Refusal {
        number: 25,
        place: records.len(),
    })
}

// Line by line, what the records tell.
fn put_all(records: &[u8], text: &[u8], out: &mut [u8])
    requires { (length text.now ≤ 65535) × (length (written_by records.now text.now) ≤ 65535) }
    ensures { out.new ≡ sets out.old 0 (written_by records.now text.now) }
{
    let mut at: usize = 0;
    let mut w: usize = 0;
    while at < records.len() {
        let Some(cue) = cue_of(&records[at..], text) else {
            return;
        };
        w = put_line(out, w, cue);
        if let Cue::End = cue {
            return;
        }
        at += len_of(records[at]);
    }
}

// The reply that records name, at the start of the room; tells how many bytes it has. A refusal writes nothing.
pub fn write(records: &[u8], text: &[u8], out: &mut [u8]) -> Result<usize, Refusal>
    ensures { (result ≡ write_answer (length out.old) records.now text.now) × (out.new ≡ write_room out.old records.now text.now) }
{
    if 65535 < text.len() {
        return Err(Refusal {
            number: 21,
            place: 0,
        });
    }
    let n = weigh(records, text)?;
    if out.len() < n {
        return Err(Refusal {
            number: 19,
            place: 0,
        });
    }
    put_all(records, text, out);
    Ok(n)
}
