// A board's reply in keyword form: read into records, and the bytes that a value stands for.
#![tactic(auto)]

ghost use Rattle.std.specs.Prelude.{◌≡◌, ◌||◌, ◌∷◌, [], true, length, take, drop};
ghost use Prim.Native.Nat.{◌+◌, ◌*◌, ◌<◌, ◌≤◌};
ghost use Rattle.std.proofs.lemmas.List.Edits.{sets};
ghost use Rattle.text.specs.Bytes.{is_word, same_bytes};
ghost use Rattle.text.specs.Lists.{all_of, up_to};
ghost use Rattle.text.specs.Room.{fitted, filled};
ghost use Rattle.terms.specs.declared.Mode.TheVariants.{In};
ghost use Rattle.replies.specs.Lines.{begins, is_end, is_quote, line_ends, end_len, begin_word, close_word, end_word, is_keyword, quote_len, group_form, item_form, form_of};
ghost use Rattle.replies.specs.Reading.{record_by, read_answer, read_room};
ghost use Rattle.replies.specs.Items.{is_value, value_answer, value_room};
ghost use Rattle.replies.specs.Steps.{whole_form, keyed_form, word_form, closed_by, run_at, after_line, Ahead, afterwards, Onward, Through, closed_stand};

use text::{Refusal, is_letter, same, words_len};

// What a line is. Wrong and Open are forms too, which definitions of specs/ name: what each is refused as depends on where it stands.
#[derive(Clone, Copy)]
pub enum Form {
    // An empty line, or one that begins with `#`: how many bytes it has.
    Nothing { len: usize },
    // How many bytes its keyword and its value have, quotes included.
    Item { keyword: usize, value: usize },
    // How many bytes its type has.
    Group { name: usize },
    Close,
    End,
    // A line of no such form.
    Wrong,
    // An item whose quote is never closed.
    Open,
}

// Where the reading stands after a line: at the next one, at the first of a group, past a group's end, or past the reply's end. w bytes of records are written.
#[derive(Clone, Copy)]
pub enum Step {
    Next { at: usize, w: usize },
    Opened { at: usize, w: usize },
    Shut { at: usize, w: usize },
    Ended { w: usize },
}

// The same after whole groups.
#[derive(Clone, Copy)]
pub enum Stand {
    Next { at: usize, w: usize },
    Shut { at: usize, w: usize },
    Ended { w: usize },
}

// ---- a line

// CR or LF.
pub fn is_end(b: u8) -> bool
    ensures { result ≡ is_end b }
{
    matches!(b, b'\r' | b'\n')
}

// Whether a line ends where this text begins.
fn line_ends(s: &[u8]) -> bool
    ensures { result ≡ line_ends s.now }
{
    match s {
        [] => true,
        [b, ..] => is_end(*b),
    }
}

// How many bytes of an end of line a text begins with: CR LF is one.
fn end_len(s: &[u8]) -> usize
    ensures { result ≡ end_len s.now }
{
    // LF first, and CR's next byte in a match of its own: with both in one pattern a reading of empty lines takes 1.5 times the instructions.
    match s {
        [b'\n', ..] => 1,
        [b'\r', rest @ ..] => match rest {
            [b'\n', ..] => 2,
            _ => 1,
        },
        _ => 0,
    }
}

// How many bytes stand before the end of the line.
fn row_len(s: &[u8]) -> usize
    ensures { result ≡ length (up_to is_end s.now) }
{
    // Not `position`, which takes an instruction more for each byte: a reading of a long value then takes 1.1 times as many.
    for (i, b) in s.iter().enumerate() {
        if is_end(*b) {
            return i;
        }
    }
    s.len()
}

// After how many bytes the quote closes that was opened before this text, its own byte with them. GRAVE takes the next byte with it.
fn quote_len(s: &[u8]) -> Option<usize>
    ensures { result ≡ closed_by (quote_len In s.now) }
{
    // GRAVE and its byte in one step: with a flag that each byte asks, a reading of quoted values takes 1.2 times the instructions, of GRAVEs alone 2.4 times.
    let mut i: usize = 0;
    while i < s.len() {
        match s[i] {
            b'"' => return Some(i + 1),
            b'`' => i += 2,
            _ => i += 1,
        }
    }
    None
}

// Whether a text begins with `"`.
pub fn begins_quote(v: &[u8]) -> bool
    ensures { result ≡ begins is_quote v.now }
{
    matches!(v, [b'"', ..])
}

// One of the three words.
#[tactic(auto, unfolding(text::specs::Bytes::bytes))]
fn is_reserved(w: &[u8]) -> bool
    ensures { result ≡ (same_bytes w.now begin_word || (same_bytes w.now close_word || same_bytes w.now end_word)) }
{
    same(w, b"begingroup") || same(w, b"endgroup") || same(w, b"endoutput")
}

// A name, and none of the three words.
#[tactic(auto, unfolding(crate::specs::Lines::is_keyword))]
pub fn is_keyword(k: &[u8]) -> bool
    ensures { result ≡ is_keyword k.now }
{
    forms::is_name(k) && !is_reserved(k)
}

// The same of a word: that all its bytes can stand in a name is known, and not looked at again.
fn is_keyword_of(w: &[u8]) -> bool
    requires { all_of is_word w.now ≡ true }
    ensures { result ≡ is_keyword w.now }
{
    match w {
        [b, ..] if is_letter(*b) && w.len() <= 64 => !is_reserved(w),
        _ => false,
    }
}

// A line that is one word.
#[tactic(auto, unfolding(text::specs::Bytes::bytes))]
fn whole_form(w: &[u8]) -> Form
    ensures { result ≡ whole_form w.now }
{
    if same(w, b"endoutput") {
        Form::End
    } else if same(w, b"endgroup") {
        Form::Close
    } else {
        Form::Wrong
    }
}

// What follows `begingroup=`.
fn group_form(v: &[u8]) -> Form
    ensures { result ≡ group_form (up_to is_end v.now) }
{
    let n = row_len(v);
    if forms::is_name(&v[..n]) {
        Form::Group { name: n }
    } else {
        Form::Wrong
    }
}

// What follows a keyword of k bytes and `=`. After the quote that closes a quoted value only the end of line may follow.
#[tactic(auto, unfolding(crate::specs::Lines::item_form))]
fn item_form(k: usize, v: &[u8]) -> Form
    ensures { result ≡ item_form k v.now }
{
    let [b'"', rest @ ..] = v else {
        return Form::Item {
            keyword: k,
            value: row_len(v),
        };
    };
    match quote_len(rest) {
        None => Form::Open,
        Some(n) if line_ends(&rest[n..]) => Form::Item {
            keyword: k,
            value: 1 + n,
        },
        Some(_) => Form::Wrong,
    }
}

// A line that begins with a word and `=`, after which v follows.
#[tactic(auto, unfolding(text::specs::Bytes::bytes))]
fn keyed_form(w: &[u8], v: &[u8]) -> Form
    requires { all_of is_word w.now ≡ true }
    ensures { result ≡ keyed_form (length w.now) w.now v.now }
{
    if same(w, b"begingroup") {
        group_form(v)
    } else if is_keyword_of(w) {
        item_form(w.len(), v)
    } else {
        Form::Wrong
    }
}

// A line that begins with a word, after which the rest follows.
fn word_form(w: &[u8], rest: &[u8]) -> Form
    requires { all_of is_word w.now ≡ true }
    ensures { result ≡ word_form (length w.now) w.now rest.now }
{
    match rest {
        [b'=', v @ ..] => keyed_form(w, v),
        _ if line_ends(rest) => whole_form(w),
        _ => Form::Wrong,
    }
}

// The line that a text begins with.
fn line_form(s: &[u8]) -> Form
    ensures { result ≡ form_of s.now }
{
    if line_ends(s) {
        Form::Nothing { len: 0 }
    } else if s[0] == b'#' {
        Form::Nothing { len: row_len(s) }
    } else {
        let (w, rest) = s.split_at(words_len(s));
        word_form(w, rest)
    }
}

// ---- records: each tells where it ends. What would stand past the room's end is not written, but counted.

// An item whose line begins at p.
fn put_item(out: &mut [u8], w: usize, p: usize, k: usize, v: usize) -> usize
    requires { (w ≤ 600000) × (p + k + 1 + v < 65536) }
    ensures { (result ≡ w + length (record_by p (Form.Item k v))) × (out.new ≡ sets out.old w (record_by p (Form.Item k v))) }
{
    let [line, line_low] = (p as u16).to_be_bytes();
    let [keyword, keyword_low] = (k as u16).to_be_bytes();
    let [at, at_low] = ((p + k + 1) as u16).to_be_bytes();
    let [value, value_low] = (v as u16).to_be_bytes();
    let t = [
        64,
        line,
        line_low,
        keyword,
        keyword_low,
        at,
        at_low,
        value,
        value_low,
    ];
    text::copy(out, w, &t);
    w + words::reply_record_len(64)
}

// A group whose line begins at p.
fn put_group(out: &mut [u8], w: usize, p: usize, n: usize) -> usize
    requires { (w ≤ 600000) × (p + 11 + n < 65536) }
    ensures { (result ≡ w + length (record_by p (Form.Group n))) × (out.new ≡ sets out.old w (record_by p (Form.Group n))) }
{
    let [at, at_low] = ((p + 11) as u16).to_be_bytes();
    let [name, name_low] = (n as u16).to_be_bytes();
    text::copy(out, w, &[65, at, at_low, name, name_low]);
    w + words::reply_record_len(65)
}

// ---- a line in its place

// Where the line after one begins whose text ends at a place.
fn past_end(s: &[u8], at: usize) -> usize
    requires { at ≤ length s.now }
    ensures { (result ≡ at + end_len (drop at s.now)) × (result ≤ length s.now) }
{
    at + end_len(&s[at..])
}

// Reads one line at a depth, and writes its record.
fn line(s: &[u8], at: usize, depth: usize, out: &mut [u8], w: usize) -> Result<Step, Refusal>
    requires { (length s.now ≤ 65535) × (at < length s.now) × (w ≤ 9 * at) }
    ensures { (run_at s.now at depth w out.old ≡ after_line s.now depth result out.new) × Ahead s.now at depth result }
{
    match line_form(&s[at..]) {
        // An empty line apart, whose end was seen already: with the next arm alone a reading of such lines takes 1.6 times the instructions.
        Form::Nothing { len: 0 } => Ok(Step::Next {
            at: past_end(s, at),
            w,
        }),
        Form::Nothing { len } => Ok(Step::Next {
            at: past_end(s, at + len),
            w,
        }),
        Form::Item { keyword, value } => Ok(Step::Next {
            at: past_end(s, at + keyword + 1 + value),
            w: put_item(out, w, at, keyword, value),
        }),
        Form::Group { name } if depth < 8 => Ok(Step::Opened {
            at: past_end(s, at + 11 + name),
            w: put_group(out, w, at, name),
        }),
        Form::Group { name: _ } => Err(Refusal {
            number: 23,
            place: at,
        }),
        Form::Close if depth == 0 => Err(Refusal {
            number: 22,
            place: at,
        }),
        Form::Close => {
            text::put(out, w, 66);
            Ok(Step::Shut {
                at: past_end(s, at + 8),
                w: w + words::reply_record_len(66),
            })
        }
        Form::End if depth == 0 => {
            text::put(out, w, 67);
            Ok(Step::Ended {
                w: w + words::reply_record_len(67),
            })
        }
        Form::End => Err(Refusal {
            number: 24,
            place: at,
        }),
        Form::Wrong => Err(Refusal {
            number: 21,
            place: at,
        }),
        Form::Open => Err(Refusal {
            number: 25,
            place: s.len(),
        }),
    }
}

// ---- groups and what they hold, each in terms of the other

// Reads lines from a place on until the group of this depth is closed, the end comes, or a line is refused.
#[cycle(group_item)]
fn group(s: &[u8], at: usize, depth: usize, out: &mut [u8], w: usize) -> Result<Stand, Refusal>
    requires { (length s.now ≤ 65535) × (at ≤ length s.now) × (w ≤ 9 * at) }
    ensures { (run_at s.now at depth w out.old ≡ afterwards s.now depth result out.new) × Through s.now at depth result }
{
    let mut r = Stand::Next { at, w };
    while let Stand::Next { at: n, w: v } = r {
        r = item(s, n, depth, out, v)?;
    }
    Ok(r)
}

// What a group that was read to its end is to the one around it: one line more.
fn around(r: Stand) -> Stand
    ensures { result ≡ closed_stand r }
{
    match r {
        Stand::Shut { at, w } => Stand::Next { at, w },
        other => other,
    }
}

// Reads one line, and where it opens a group that group to its end.
#[cycle(group_item)]
fn item(s: &[u8], at: usize, depth: usize, out: &mut [u8], w: usize) -> Result<Stand, Refusal>
    requires { (length s.now ≤ 65535) × (at ≤ length s.now) × (w ≤ 9 * at) }
    ensures { (run_at s.now at depth w out.old ≡ afterwards s.now depth result out.new) × Onward s.now at depth result }
{
    if s.len() <= at {
        return Err(Refusal {
            number: 25,
            place: s.len(),
        });
    }
    match line(s, at, depth, out, w)? {
        Step::Next { at, w } => Ok(Stand::Next { at, w }),
        Step::Opened { at, w } => Ok(around(group(s, at, depth + 1, out, w)?)),
        Step::Shut { at, w } => Ok(Stand::Shut { at, w }),
        Step::Ended { w } => Ok(Stand::Ended { w }),
    }
}

// Reads a text from its first line on: how many bytes of records it has, or its refusal. Where it is not refused, the records stand at the room's start, as
// far as it goes.
fn read_all(s: &[u8], out: &mut [u8]) -> Result<usize, Refusal>
    requires { length s.now ≤ 65535 }
    ensures { (result ≡ (run_at s.now 0 0 0 out.old).answer) × (out.new ≡ (run_at s.now 0 0 0 out.old).room) }
{
    match group(s, 0, 0, out, 0)? {
        Stand::Ended { w } => Ok(w),
        // Neither can be: no group is open at depth 0, and a group's lines end with its own.
        Stand::Next { at, w: _ } => Err(Refusal {
            number: 25,
            place: at,
        }),
        Stand::Shut { at, w: _ } => Err(Refusal {
            number: 22,
            place: at,
        }),
    }
}

// Reads a board's reply into records at the room's start; tells how many bytes they have. A refusal writes nothing: the records are held until the whole reply
// is read. Those of over 4,096 bytes are then read once more.
pub fn read(s: &[u8], out: &mut [u8]) -> Result<usize, Refusal>
    ensures { (result ≡ read_answer (length out.old) s.now) × (out.new ≡ read_room out.old s.now) }
{
    if 65535 < s.len() {
        return Err(Refusal {
            number: 21,
            place: 0,
        });
    }
    let mut held = [0u8; 4096];
    let n = read_all(s, &mut held)?;
    if out.len() < n {
        return Err(Refusal {
            number: 19,
            place: 0,
        });
    }
    if held.len() < n {
        return read_all(s, out);
    }
    text::copy(out, 0, &held[..n]);
    Ok(n)
}

// ---- what a raw value stands for

// Whether a reply can have this value: a quoted one, or one that begins with no `"`.
#[tactic(auto, unfolding(crate::specs::Items::is_value))]
fn is_value(raw: &[u8]) -> bool
    ensures { result ≡ is_value raw.now }
{
    match raw {
        [b'"', rest @ ..] => quote_len(rest) == Some(rest.len()),
        _ => true,
    }
}

// The bytes that a value stands for, at the start of the room; tells how many. One that begins with `"` and is no quoted value is 21 at 0.
#[tactic(auto, unfolding(crate::specs::Items::value_answer, crate::specs::Items::value_room, crate::specs::Items::plain_of))]
pub fn value(raw: &[u8], out: &mut [u8]) -> Result<usize, Refusal>
    ensures { (result ≡ value_answer (length out.old) raw.now) × (out.new ≡ value_room out.old raw.now) }
{
    if !is_value(raw) {
        return Err(Refusal {
            number: 21,
            place: 0,
        });
    }
    if begins_quote(raw) {
        return terms::write_meant(raw, out);
    }
    put_plain(raw, out)
}

// A text as it is, at the start of the room.
fn put_plain(s: &[u8], out: &mut [u8]) -> Result<usize, Refusal>
    ensures { (result ≡ fitted (length out.old) s.now) × (out.new ≡ filled out.old s.now) }
{
    if out.len() < s.len() {
        return Err(Refusal {
            number: 19,
            place: 0,
        });
    }
    text::copy(out, 0, s);
    Ok(s.len())
}
