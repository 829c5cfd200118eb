// Canonical writing of a line.
#![tactic(auto)]

ghost use Rattle.std.specs.Prelude.{◌≡◌, ◌∷◌, true, ◌≤◌, length};
ghost use Rattle.std.proofs.lemmas.List.Edits.{sets};
ghost use Rattle.terms.specs.Signs.{raws};
ghost use Rattle.words.specs.Words.{option_name};
ghost use Rattle.words.specs.Pens.{Puts};
ghost use Rattle.reading.specs.Reading.{reading_of};
ghost use Rattle.reading.specs.Cursor.{left, first_cursor};
ghost use Rattle.reading.specs.Shown.{verdict_in};
ghost use Rattle.canonical.specs.Canonical.{quotes, is_plain, write_text, writing_answer, writing_room};
ghost use Rattle.canonical.specs.Written.{graves, graved, graved_all, text_written, texts_in, is_parting, text_len, leads_dash, dash_grave, place_in, slash, slashed, level_in, argument_in, written, gap, written_in, written_from};

use reading::{Cursor, Shown};
use terms::{Mode, Span};
use text::Refusal;
use words::{Kind, Pen};

// A byte, with GRAVE before it where it has one.
fn put_graved(pen: &mut Pen<'_>, b: u8, quoted: bool)
    ensures { Puts pen.old (graved quoted b) pen.new }
{
    if is_graved(b, quoted) {
        pen.byte(b'`');
    }
    pen.byte(b);
}

// A text's bytes, each with its GRAVE.
fn put_all_graved(pen: &mut Pen<'_>, s: &[u8], quoted: bool)
    ensures { Puts pen.old (graved_all quoted s.now) pen.new }
{
    for b in s {
        put_graved(pen, *b, quoted);
    }
}

fn put_quoted(pen: &mut Pen<'_>, s: &[u8])
    ensures { Puts pen.old (raws (quotes s.now)) pen.new }
{
    pen.byte(b'"');
    put_all_graved(pen, s, true);
    pen.byte(b'"');
}

// A value or list item by the bytes that it stands for.
fn put_value(pen: &mut Pen<'_>, s: &[u8])
    ensures { Puts pen.old (raws (write_text s.now)) pen.new }
{
    if is_plain(s) {
        pen.text(s);
    } else {
        put_quoted(pen, s);
    }
}

// A text of a property, or of the items of display and output; nothing where there is none. One of letters, digits and underscores stands for itself.
fn put_text(pen: &mut Pen<'_>, s: &[u8])
    requires { length s.now ≤ 1024 }
    ensures { Puts pen.old (text_written s.now) pen.new }
{
    if s.is_empty() {
        return;
    }
    if is_plain(s) {
        return pen.text(s);
    }
    let mut held = [0u8; 1024];
    let n = terms::put_meant(&mut held, 0, s);
    put_value(pen, &held[..n]);
}

// A property, or the items of display and output: text by text, with what parts them.
// Inlined, as all the rest is: a pen that is passed to a call has its place in memory, and writing a command takes 8 % longer.
#[inline(always)]
fn put_texts(pen: &mut Pen<'_>, s: &[u8])
    requires { length s.now ≤ 1024 }
    ensures { Puts pen.old (texts_in s.now) pen.new }
{
    let mut left = s;
    loop {
        let (text, more) = left.split_at(text_len(left));
        put_text(pen, text);
        let Some((parting, rest)) = more.split_first() else {
            return;
        };
        pen.byte(*parting);
        left = rest;
    }
}

// A source or destination.
fn put_place(pen: &mut Pen<'_>, s: &[u8])
    requires { length s.now ≤ 1024 }
    ensures { Puts pen.old (place_in s.now) pen.new }
{
    let mut held = [0u8; 1024];
    let n = terms::put_meant(&mut held, 0, s);
    put_dash(pen, leads_dash(s));
    put_all_graved(pen, &held[..n], false);
}

fn put_dash(pen: &mut Pen<'_>, leads: bool)
    ensures { Puts pen.old (dash_grave leads) pen.new }
{
    if leads {
        pen.byte(b'`');
    }
}

fn put_target(pen: &mut Pen<'_>, s: &[u8])
    ensures { Puts pen.old (slashed s.now) pen.new }
{
    for b in s {
        pen.byte(slash(*b));
    }
}

// A level: `all` in lower case, a number as it is.
fn put_level(pen: &mut Pen<'_>, s: &[u8])
    ensures { Puts pen.old (level_in s.now) pen.new }
{
    pen.text(if words::is_all(s) { b"all" } else { s });
}

// An option's argument.
fn put_argument(pen: &mut Pen<'_>, kind: Kind, s: &[u8])
    requires { length s.now ≤ 1024 }
    ensures { Puts pen.old (argument_in kind s.now) pen.new }
{
    match kind {
        Kind::Mere | Kind::Keep => pen.text(s),
        Kind::Level => put_level(pen, s),
        Kind::Place => put_place(pen, s),
        Kind::Entries => put_texts(pen, s),
    }
}

// An option by its long name.
fn put_option(pen: &mut Pen<'_>, n: u8)
    ensures { Puts pen.old (45 ∷ option_name n) pen.new }
{
    pen.byte(b'-');
    pen.option_name(n);
}

// A term, as the part that it is.
fn put_term(pen: &mut Pen<'_>, item: Shown, s: &[u8])
    requires { length s.now ≤ 1024 }
    ensures { Puts pen.old (written item s.now) pen.new }
{
    match item {
        Shown::Verb(n) => pen.verb_name(n),
        Shown::Option(n) => put_option(pen, n),
        Shown::Argument(n) => put_argument(pen, words::kind_of(n), s),
        Shown::Target => put_target(pen, s),
        Shown::Property { .. } => put_texts(pen, s),
    }
}

// A space before a term, unless it is the first.
fn put_gap(pen: &mut Pen<'_>, first: bool)
    ensures { Puts pen.old (gap first) pen.new }
{
    if !first {
        pen.byte(b' ');
    }
}

// Whether GRAVE is written before a byte, in quotes or outside.
fn is_graved(b: u8, quoted: bool) -> bool
    ensures { result ≡ graves quoted b }
{
    match b {
        b'`' | b'"' => true,
        b' ' => !quoted,
        _ => false,
    }
}

// Whether a value or list item that stands for these bytes is written plain.
fn is_plain(s: &[u8]) -> bool
    ensures { result ≡ is_plain s.now }
{
    !s.is_empty() && s.iter().all(|b| text::is_word(*b))
}

// A bare `(` `)` `,` or `=`.
fn is_parting(m: Mode, b: u8) -> bool
    ensures { result ≡ is_parting m b }
{
    match m {
        Mode::Out => matches!(b, b'(' | b')' | b',' | b'='),
        Mode::OutGrave | Mode::In | Mode::InGrave => false,
    }
}

// How many bytes stand before the first that parts texts.
fn text_len(s: &[u8]) -> usize
    ensures { result ≡ text_len Mode.Out s.now }
{
    let mut m = Mode::Out;
    for (i, b) in s.iter().enumerate() {
        if is_parting(m, *b) {
            return i;
        }
        m = terms::step(m, *b);
    }
    s.len()
}

// Whether a source or destination begins with an escaped `-`.
fn leads_dash(s: &[u8]) -> bool
    ensures { result ≡ leads_dash s.now }
{
    s.starts_with(b"`-")
}

// `/` for `\`.
fn slash(b: u8) -> u8
    ensures { result ≡ slash b }
{
    if b == b'\\' { b'/' } else { b }
}

// Term by term from a line's first one on: the line's refusal, or how many bytes its writing has. Where it is not refused, the writing stands at the room's start.
fn put_line(line: &[u8], out: &mut [u8]) -> Result<usize, Refusal>
    requires { length line.now ≤ 1024 }
    ensures { (result ≡ written_from 0 true (left line.now first_cursor)) × (verdict_in (left line.now first_cursor) ≡ Ok tt → out.new ≡ sets out.old 0 (written_in true (left line.now first_cursor))) }
{
    let mut c = Cursor::begin();
    let mut pen = Pen::new(out);
    let mut first = true;
    while let Some(part) = c.next(line)? {
        let Span { at, len } = part.term;
        put_gap(&mut pen, first);
        put_term(&mut pen, part.item, &line[at..at + len]);
        first = false;
    }
    Ok(pen.at)
}

// The same of a whole line: its refusal, or how many bytes its writing has, which stands at the room's start, as far as it goes.
fn put_writing(line: &[u8], out: &mut [u8]) -> Result<usize, Refusal>
    ensures { (result ≡ written_from 0 true (reading_of line.now)) × (verdict_in (reading_of line.now) ≡ Ok tt → out.new ≡ sets out.old 0 (written_in true (reading_of line.now))) }
{
    terms::lexical(line)?;
    put_line(line, out)
}

// A line's canonical writing, at the start of the room; tells how many bytes it has. A refusal writes nothing: the writing is held until the whole line is read.
// One of over 1,024 bytes, which is rare, is then written once more.
pub fn canonical(line: &[u8], out: &mut [u8]) -> Result<usize, Refusal>
    ensures { (result ≡ writing_answer (length out.old) (reading_of line.now)) × (out.new ≡ writing_room out.old (reading_of line.now)) }
{
    let mut held = [0u8; 1024];
    let n = put_writing(line, &mut held)?;
    if out.len() < n {
        return Err(Refusal {
            number: 19,
            place: 0,
        });
    }
    if 1024 < n {
        return put_writing(line, out);
    }
    text::copy(out, 0, &held[..n]);
    Ok(n)
}
