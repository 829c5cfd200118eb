// The forms of a command's parts.
#![tactic(auto)]

ghost use Rattle.std.specs.Prelude.{◌≡◌, suc, ◌<◌, ◌≤◌, false, ◌&&◌, length, take, drop, get_or, eqb, leb};
ghost use Rattle.terms.specs.declared.Mode.TheVariants.{Out, OutGrave, In, InGrave};
ghost use Rattle.terms.specs.Signs.{bare, escaped, quote, quoted, gives, signs};
ghost use Rattle.forms.specs.Forms.{is_name, is_keep, is_level, is_place, is_plain_sign, is_text, is_list};
ghost use Rattle.forms.specs.Targets.{is_separator, is_tag_len, segment_of, segments_of};
ghost use Rattle.forms.specs.Automata.{text_step, whole, text_over, text_end, is_comma, opened, entry_len};
ghost use Rattle.forms.specs.Answers.{piece_of, segment_text, segment_at, where_of, where_in, is_value_in, property_in, topic_in, are_entries_in};
ghost use Rattle.forms.specs.Steps.{number_of, after_tag, is_inner, bare_at, next_item, list_step, items_after, name_len, equal_at, shape_if, is_entry_in};

use terms::{Mode, has_quote, is_twelve, is_two, step};
use text::{decimal, is_letter, letters_len, same, words_len};
use words::{is_all, is_session};

// Where a pass over a quoted string or a plain text stands.
#[derive(Clone, Copy)]
pub enum At {
    Start,
    Plain,
    Inside,
    Ended,
    Dead,
}

// A property: how many bytes its name has, and its operator, 0 none, 1 `=`, 2 `==`. The value stands after both.
#[derive(Clone, Copy)]
pub struct Shape {
    pub name: usize,
    pub operator: u8,
}

// A target.
#[derive(Clone, Copy)]
pub enum Where {
    Session,
    Path { rooted: bool, segments: usize },
}

// A segment of a path: how many bytes it has, how many of them are its tag, and its number.
#[derive(Clone, Copy)]
pub enum Piece {
    Here { len: usize },
    Above { len: usize },
    Child { len: usize, tag: usize, number: u16 },
    Children { len: usize, tag: usize },
}

// `/` or `\`
pub fn is_separator(b: u8) -> bool
    ensures { result ≡ is_separator b }
{
    matches!(b, b'/' | b'\\')
}

// How many bytes stand from a place on before the next separator or the end.
fn segment_len(t: &[u8], at: usize) -> usize
    requires { at ≤ length t.now }
    ensures { result ≡ length (segment_text t.now at) }
{
    let rest = &t[at..];
    rest.iter()
        .position(|b| is_separator(*b))
        .unwrap_or(rest.len())
}

fn is_tag_len(k: usize) -> bool
    ensures { result ≡ is_tag_len k }
{
    matches!(k, 1..=16)
}

fn leads_zero(d: &[u8]) -> bool
    ensures { result ≡ eqb (get_or d.now 0 0) 48 }
{
    d.first() == Some(&b'0')
}

// A tag's number: 1 to 65,535 without leading zero.
fn number_of(d: &[u8]) -> Option<u64>
    ensures { result ≡ number_of d.now }
{
    if leads_zero(d) {
        return None;
    }
    decimal(d, 65535)
}

// What follows a tag of k bytes in a segment of n.
fn after_tag(d: &[u8], n: usize, k: usize) -> Option<Piece>
    ensures { result ≡ after_tag n k d.now }
{
    match number_of(d) {
        Some(v) => Some(Piece::Child {
            len: n,
            tag: k,
            number: v as u16,
        }),
        None => {
            if same(d, b"*") {
                return Some(Piece::Children { len: n, tag: k });
            }
            None
        }
    }
}

// A segment by its text.
fn piece_of(s: &[u8]) -> Option<Piece>
    ensures { result ≡ piece_of (length s.now) (segment_of s.now) }
{
    let n = s.len();
    if same(s, b".") {
        return Some(Piece::Here { len: n });
    }
    if same(s, b"..") {
        return Some(Piece::Above { len: n });
    }
    let k = letters_len(s);
    if is_tag_len(k) {
        return after_tag(&s[k..], n, k);
    }
    None
}

// The segment at a place of a path, up to the next separator or the end.
pub fn segment_at(t: &[u8], at: usize) -> Option<Piece>
    ensures { result ≡ segment_at t.now at }
{
    if t.len() <= at {
        return None;
    }
    let n = segment_len(t, at);
    piece_of(&t[at..at + n])
}

// Whether a segment may stand before another.
fn is_inner(p: Piece) -> bool
    ensures { result ≡ is_inner (Some p) }
{
    !matches!(p, Piece::Children { .. })
}

// The path whose first segment stands at a place.
fn path_at(t: &[u8], from: usize, rooted: bool) -> Option<Where>
    requires { from ≤ length t.now }
    ensures { result ≡ where_of (segments_of rooted (drop from t.now)) }
{
    let mut at: usize = from;
    for k in 0..16usize {
        let n = segment_len(t, at);
        let end = at + n;
        let p = piece_of(&t[at..end])?;
        if end == t.len() {
            return Some(Where::Path {
                rooted,
                segments: k + 1,
            });
        }
        if !is_inner(p) {
            return None;
        }
        at = end + 1;
    }
    None
}

// A target: `SESSION` or a path.
pub fn target_of(t: &[u8]) -> Option<Where>
    ensures { result ≡ where_in t.now }
{
    if is_session(t) {
        return Some(Where::Session);
    }
    if t.len() == 0 {
        return None;
    }
    if !is_separator(t[0]) {
        return path_at(t, 0, false);
    }
    if t.len() == 1 {
        return Some(Where::Path {
            rooted: true,
            segments: 0,
        });
    }
    path_at(t, 1, true)
}

// The first n bytes of s, or all of it where it has fewer. The readers take the line from where a text begins, and the text's length beside it: that form was asked for
// (docs/DECISIONS.md, 'Language forms').
fn front(s: &[u8], n: usize) -> &[u8]
    ensures { result.now ≡ take n s.now }
{
    &s[..n.min(s.len())]
}

// A bare byte that may stand in a plain value. Each in an arm of its own: with the five in one pattern, or by `matches!`, a plain value took 42 instructions a byte in
// place of 28.
#[tactic(auto, unfolding(crate::specs::Forms::is_plain_sign, text::specs::Bytes::one_of, text::specs::Bytes::bytes))]
fn is_plain(b: u8) -> bool
    ensures { result ≡ is_plain_sign (bare b) }
{
    match b {
        b'"' => false,
        b',' => false,
        b'(' => false,
        b')' => false,
        b'=' => false,
        _ => true,
    }
}

// What each kind of sign leads to.
#[tactic(auto, unfolding(crate::specs::Forms::is_plain_sign))]
fn on_bare(q: At, b: u8) -> At
    ensures { result ≡ text_step q (bare b) }
{
    let p = is_plain(b);
    match q {
        At::Start | At::Plain => {
            if p {
                return At::Plain;
            }
            At::Dead
        }
        At::Inside | At::Ended | At::Dead => At::Dead,
    }
}

#[tactic(auto, unfolding(crate::specs::Forms::is_plain_sign))]
fn on_escaped(q: At, b: u8) -> At
    ensures { result ≡ text_step q (escaped b) }
{
    match q {
        At::Start | At::Plain => At::Plain,
        At::Inside | At::Ended | At::Dead => At::Dead,
    }
}

#[tactic(auto, unfolding(crate::specs::Forms::is_plain_sign))]
fn on_quote(q: At) -> At
    ensures { result ≡ text_step q quote }
{
    match q {
        At::Start => At::Inside,
        At::Inside => At::Ended,
        At::Plain | At::Ended | At::Dead => At::Dead,
    }
}

#[tactic(auto, unfolding(crate::specs::Forms::is_plain_sign))]
fn on_quoted(q: At, b: u8) -> At
    ensures { result ≡ text_step q (quoted b) }
{
    match q {
        At::Inside => At::Inside,
        At::Start | At::Plain | At::Ended | At::Dead => At::Dead,
    }
}

// What a byte leads to in each mode: it gives no sign, one or two. A function for each mode: as one match over mode and byte, a plain value took 41 instructions a
// byte in place of 28.
#[tactic(auto, unfolding(terms::specs::Signs::gives, crate::specs::Automata::text_over))]
fn at_out(q: At, b: u8) -> At
    ensures { result ≡ text_over q (gives Out b) }
{
    match b {
        b'`' => q,
        b'"' => on_quote(q),
        _ => on_bare(q, b),
    }
}

#[tactic(auto, unfolding(terms::specs::Signs::gives, crate::specs::Automata::text_over))]
fn at_out_grave(q: At, b: u8) -> At
    ensures { result ≡ text_over q (gives OutGrave b) }
{
    if is_twelve(b) {
        return on_escaped(q, b);
    }
    on_bare(on_bare(q, b'`'), b)
}

#[tactic(auto, unfolding(terms::specs::Signs::gives, crate::specs::Automata::text_over))]
fn at_in(q: At, b: u8) -> At
    ensures { result ≡ text_over q (gives In b) }
{
    match b {
        b'`' => q,
        b'"' => on_quote(q),
        _ => on_quoted(q, b),
    }
}

#[tactic(auto, using(crate::proofs::TextLaws::quoted_both), unfolding(terms::specs::Signs::gives, crate::specs::Automata::text_over))]
fn at_in_grave(q: At, b: u8) -> At
    ensures { result ≡ text_over q (gives InGrave b) }
{
    if is_two(b) {
        return on_quoted(q, b);
    }
    on_quoted(on_quoted(q, b'`'), b)
}

pub fn at_step(q: At, m: Mode, b: u8) -> At
    ensures { result ≡ text_over q (gives m b) }
{
    match m {
        Mode::Out => at_out(q, b),
        Mode::OutGrave => at_out_grave(q, b),
        Mode::In => at_in(q, b),
        Mode::InGrave => at_in_grave(q, b),
    }
}

pub fn is_whole(q: At) -> bool
    ensures { result ≡ whole q }
{
    matches!(q, At::Plain | At::Ended)
}

// The text's end: a GRAVE may wait.
#[tactic(auto, unfolding(crate::specs::Automata::text_end, crate::specs::Automata::text_over))]
fn at_end(q: At, m: Mode) -> bool
    ensures { result ≡ text_end q m }
{
    match m {
        Mode::Out | Mode::In => is_whole(q),
        Mode::OutGrave => is_whole(on_bare(q, b'`')),
        Mode::InGrave => is_whole(on_quoted(q, b'`')),
    }
}

// Are the first n bytes of s a quoted string, or plain?
#[tactic(auto, using(crate::proofs::TextLaws::text_pass))]
pub fn is_text(s: &[u8], n: usize) -> bool
    ensures { result ≡ is_text (signs Out (take n s.now)) }
{
    let text = front(s, n);
    let mut m = Mode::Out;
    let mut q = At::Start;
    for b in text {
        q = at_step(q, m, *b);
        m = step(m, *b);
    }
    at_end(q, m)
}

// Is a byte this one, bare? Of a byte that GRAVE can escape.
pub fn is_bare(m: Mode, b: u8, k: u8) -> bool
    ensures { result ≡ bare_at k m b }
{
    matches!(m, Mode::Out) && b == k
}

fn next_item(q: At) -> At
    ensures { result ≡ next_item q }
{
    if is_whole(q) {
        return At::Start;
    }
    At::Dead
}

#[tactic(auto, unfolding(crate::specs::Steps::list_step))]
fn list_step(q: At, m: Mode, b: u8) -> At
    ensures { result ≡ list_step q m b }
{
    if is_bare(m, b, b',') {
        return next_item(q);
    }
    at_step(q, m, b)
}

#[tactic(auto, unfolding(crate::specs::Steps::items_after))]
fn items_after(k: usize, m: Mode, b: u8) -> usize
    requires { k < 18446744073709551615 }
    ensures { result ≡ items_after k m b }
{
    if is_bare(m, b, b',') {
        return k + 1;
    }
    k
}

// The closing parenthesis after k items and the last one.
fn closes(q: At, k: usize, last: bool) -> bool
    ensures { result ≡ whole q && (leb (suc k) 16 && last) }
{
    is_whole(q) && k < 16 && last
}

// Are the first n bytes of s what follows the opening parenthesis of a list?
#[tactic(auto, using(crate::proofs::TextLaws::list_pass))]
pub fn is_list(s: &[u8], n: usize) -> bool
    ensures { result ≡ is_list (signs Out (take n s.now)) }
{
    let text = front(s, n);
    let mut k: usize = 0;
    let mut m = Mode::Out;
    let mut q = At::Start;
    for (i, b) in text.iter().enumerate() {
        if is_bare(m, *b, b')') {
            return closes(q, k, i + 1 == text.len());
        }
        q = list_step(q, m, *b);
        k = items_after(k, m, *b);
        m = step(m, *b);
    }
    false
}

// Are the first n bytes of s a value?
#[tactic(auto, using(crate::proofs::ValueLaws::first_byte))]
pub fn is_value(s: &[u8], n: usize) -> bool
    ensures { result ≡ is_value_in s.now n }
{
    match front(s, n).first() {
        None => false,
        Some(b'(') => is_list(&s[1..], n - 1),
        Some(_) => is_text(s, n),
    }
}

// How many bytes the name has that the first n bytes of s begin with: 0 where they begin with none.
#[tactic(auto, unfolding(crate::specs::Steps::name_len))]
fn name_len(s: &[u8], n: usize) -> usize
    ensures { result ≡ name_len (take n s.now) }
{
    let text = front(s, n);
    let Some(b) = text.first() else {
        return 0;
    };
    if !is_letter(*b) {
        return 0;
    }
    let k = words_len(text);
    if k <= 64 { k } else { 0 }
}

#[tactic(auto, using(crate::proofs::PropertyLaws::whole_name))]
pub fn is_name(t: &[u8]) -> bool
    ensures { result ≡ is_name t.now }
{
    !t.is_empty() && name_len(t, t.len()) == t.len()
}

// keep: a decimal from 0 to 4,294,967,295.
pub fn is_keep(t: &[u8]) -> bool
    ensures { result ≡ is_keep t.now }
{
    decimal(t, 4294967295).is_some()
}

// level: the same, or `all`, its letters in either case.
#[tactic(auto, unfolding(crate::specs::Forms::is_level))]
pub fn is_level(t: &[u8]) -> bool
    ensures { result ≡ is_level t.now }
{
    is_keep(t) || is_all(t)
}

// source, destination: no unescaped `"`.
#[tactic(auto, unfolding(terms::specs::Marks::has_mark, crate::specs::Forms::is_place))]
pub fn is_place(t: &[u8]) -> bool
    ensures { result ≡ is_place (signs Out t.now) }
{
    !has_quote(t)
}

// A help topic: a name.
pub fn topic_of(t: &[u8]) -> Option<Shape>
    ensures { result ≡ topic_in t.now }
{
    shape_if(is_name(t), t.len(), 0)
}

fn is_equal(s: &[u8], n: usize, v: usize) -> bool
    ensures { result ≡ equal_at (take n s.now) v }
{
    front(s, n).get(v) == Some(&b'=')
}

fn shape_if(good: bool, name: usize, operator: u8) -> Option<Shape>
    ensures { result ≡ shape_if good name operator }
{
    if good {
        return Some(Shape { name, operator });
    }
    None
}

// The property in the first n bytes of s: name, name `=` value or name `==` value.
pub fn property_of(s: &[u8], n: usize) -> Option<Shape>
    ensures { result ≡ property_in s.now n }
{
    let k = name_len(s, n);
    if k == 0 {
        return None;
    }
    if k == front(s, n).len() {
        return Some(Shape {
            name: k,
            operator: 0,
        });
    }
    if !is_equal(s, n, k) {
        return None;
    }
    let v = k + 1;
    if is_equal(s, n, v) {
        let w = k + 2;
        return shape_if(is_value(&s[w..], n - w), k, 2);
    }
    shape_if(is_value(&s[v..], n - v), k, 1)
}

// Is the text of one item of display or output a name, or a name, `=` and a value?
#[tactic(auto, using(crate::proofs::PropertyLaws::one_entry))]
fn is_entry(s: &[u8], n: usize) -> bool
    ensures { result ≡ is_entry_in s.now n }
{
    let k = name_len(s, n);
    if k == 0 {
        return false;
    }
    if k == front(s, n).len() {
        return true;
    }
    if !is_equal(s, n, k) {
        return false;
    }
    let v = k + 1;
    is_value(&s[v..], n - v)
}

// Does a byte part the items of display and output? Not where a parenthesis is open.
fn is_comma(m: Mode, listed: bool, b: u8) -> bool
    ensures { result ≡ is_comma m listed b }
{
    !listed && is_bare(m, b, b',')
}

// Is a parenthesis open after a byte?
fn is_listed(m: Mode, listed: bool, b: u8) -> bool
    ensures { result ≡ opened m listed b }
{
    is_bare(m, b, b'(') || (!is_bare(m, b, b')') && listed)
}

// How many of the first n bytes of s are the first item of display or output: those before a bare comma that stands in no list.
#[tactic(auto, using(crate::proofs::EntryLaws::entry_scan))]
pub fn entry_len(s: &[u8], n: usize) -> usize
    ensures { result ≡ entry_len Out false (take n s.now) }
{
    let text = front(s, n);
    let mut m = Mode::Out;
    let mut listed = false;
    for (i, b) in text.iter().enumerate() {
        if is_comma(m, listed, *b) {
            return i;
        }
        listed = is_listed(m, listed, *b);
        m = step(m, *b);
    }
    text.len()
}

// Are the first n bytes of s the items of display or output?
#[tactic(auto, using(crate::proofs::EntryLaws::entry_loop))]
pub fn are_entries(s: &[u8], n: usize) -> bool
    ensures { result ≡ are_entries_in s.now n }
{
    let mut rest = s;
    let mut left = n.min(s.len());
    loop {
        let k = entry_len(rest, left);
        if !is_entry(rest, k) {
            return false;
        }
        if k == left {
            return true;
        }
        rest = &rest[k + 1..];
        left -= k + 1;
    }
}
