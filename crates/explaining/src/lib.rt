// The text of one line for a person: what its parts are, or where and why it is refused.
#![tactic(auto)]

ghost use Rattle.std.specs.Prelude.{◌≡◌, ◌+◌, ◌<◌, List, ℕ, length, replicate};
ghost use Rattle.std.specs.Borrow.{MutBor};
ghost use Rattle.text.specs.Decimal.{digits};
ghost use Rattle.text.specs.Room.{fitted, filled};
ghost use Rattle.words.specs.Words.{kind_of};
ghost use Rattle.words.specs.Pens.{Puts};
ghost use Rattle.reading.specs.Reading.{reading_of};
ghost use Rattle.reading.specs.Cursor.{left, first_cursor};
ghost use Rattle.reading.specs.Shown.{verdict_in};
ghost use Rattle.explaining.specs.Words.{words_of};
ghost use Rattle.explaining.specs.Explained.{hex_digit, visible_byte, visible, newline, verb_text, option_label, option_text, argument_text, target_text, value_text, property_text, part_text, mark_text, where_text, reason_text, refused_text, explained_of, cut_text};
ghost use Rattle.explaining.specs.Steps.{PutsFirst, is_blank, parts_in};

use reading::{Cursor, Shown};
use text::Refusal;
use words::{Kind, Pen};

// The end of a line of text.
fn put_end(pen: &mut Pen<'_>)
    ensures { Puts pen.old newline pen.new }
{
    pen.text(b"\n");
}

fn put_number(pen: &mut Pen<'_>, n: u16)
    ensures { Puts pen.old (digits n) pen.new }
{
    let len = text::put_decimal(pen.out, pen.at, n);
    pen.at = pen.at.saturating_add(len);
}

// ---- bytes as shown

// A byte from 20h to 7Eh as it is, any other as `\xNN`.
fn put_visible_byte(pen: &mut Pen<'_>, b: u8)
    ensures { Puts pen.old (visible_byte b) pen.new }
{
    if text::is_printable(b) {
        pen.text(&[b]);
    } else {
        pen.text(&[b'\\', b'x', hex_digit(b / 16), hex_digit(b % 16)]);
    }
}

fn put_visible(pen: &mut Pen<'_>, s: &[u8])
    ensures { Puts pen.old (visible s.now) pen.new }
{
    for b in s {
        put_visible_byte(pen, *b);
    }
}

// ---- the parts

fn put_verb(pen: &mut Pen<'_>, n: u8)
    ensures { Puts pen.old (verb_text n) pen.new }
{
    pen.text(b"  verb ");
    pen.verb_name(n);
    put_end(pen);
}

// An option by its long name.
fn put_option(pen: &mut Pen<'_>, n: u8)
    ensures { Puts pen.old (option_label n) pen.new }
{
    pen.text(b"  option ");
    pen.option_name(n);
}

// An option that takes no argument; nothing of another one, which is told with its argument.
fn put_mere(pen: &mut Pen<'_>, n: u8)
    ensures { Puts pen.old (option_text n (kind_of n)) pen.new }
{
    if let Kind::Mere = words::kind_of(n) {
        put_option(pen, n);
        put_end(pen);
    }
}

// An option and its argument.
fn put_argument(pen: &mut Pen<'_>, n: u8, t: &[u8])
    ensures { Puts pen.old (argument_text n t.now) pen.new }
{
    put_option(pen, n);
    pen.text(b": ");
    put_visible(pen, t);
    put_end(pen);
}

fn put_target(pen: &mut Pen<'_>, t: &[u8])
    ensures { Puts pen.old (target_text t.now) pen.new }
{
    pen.text(b"  target ");
    put_visible(pen, t);
    put_end(pen);
}

// A property's operator and value; nothing where it has none.
fn put_value(pen: &mut Pen<'_>, operator: u8, v: &[u8])
    ensures { Puts pen.old (value_text operator v.now) pen.new }
{
    match operator {
        0 => {}
        1 => {
            pen.text(b" = ");
            put_visible(pen, v);
        }
        _ => {
            pen.text(b" == ");
            put_visible(pen, v);
        }
    }
}

fn put_property(pen: &mut Pen<'_>, name: &[u8], operator: u8, v: &[u8])
    ensures { Puts pen.old (property_text name.now operator v.now) pen.new }
{
    pen.text(b"  property ");
    put_visible(pen, name);
    put_value(pen, operator, v);
    put_end(pen);
}

// A property by its term: a name of `len` bytes, the operator, and the rest.
fn put_property_in(pen: &mut Pen<'_>, len: usize, operator: u8, t: &[u8])
    ensures { Puts pen.old (part_text (Shown.Property len operator) t.now) pen.new }
{
    let (name, rest) = t.split_at(t.len().min(len));
    put_property(
        pen,
        name,
        operator,
        &rest[rest.len().min(operator as usize)..],
    );
}

// A part by its term.
fn put_part(pen: &mut Pen<'_>, item: Shown, t: &[u8])
    ensures { Puts pen.old (part_text item t.now) pen.new }
{
    match item {
        Shown::Verb(n) => put_verb(pen, n),
        Shown::Option(n) => put_mere(pen, n),
        Shown::Argument(n) => put_argument(pen, n, t),
        Shown::Target => put_target(pen, t),
        Shown::Property { name, operator } => put_property_in(pen, name, operator, t),
    }
}

// The parts of a line that is not refused, one after another.
fn put_parts(pen: &mut Pen<'_>, line: &[u8])
    requires { verdict_in (left line.now first_cursor) ≡ Ok tt }
    ensures { Puts pen.old (parts_in line.now (left line.now first_cursor)) pen.new }
{
    let mut c = Cursor::begin();
    loop {
        match c.next(line) {
            Ok(Some(part)) => {
                let term = part.term;
                put_part(pen, part.item, &line[term.at..term.at + term.len]);
            }
            Ok(None) => return,
            Err(_) => return,
        }
    }
}

// ---- a refusal

// The refusal's number and its place.
fn put_refused_at(pen: &mut Pen<'_>, number: u8, place: u16)
    ensures { Puts pen.old (where_text number place) pen.new }
{
    pen.text(b"  refused as ");
    put_number(pen, number as u16);
    pen.text(b" at ");
    put_number(pen, place);
    pen.text(b": ");
}

fn put_reason(pen: &mut Pen<'_>, number: u8, place: u16)
    ensures { Puts pen.old (reason_text number place) pen.new }
{
    put_refused_at(pen, number, place);
    pen.text(words_of(number));
    put_end(pen);
}

// As many spaces as a byte takes columns.
fn put_columns(pen: &mut Pen<'_>, b: u8)
    ensures { Puts pen.old (replicate (length (visible_byte b)) 32) pen.new }
{
    if text::is_printable(b) {
        pen.text(b" ");
    } else {
        pen.text(b"    ");
    }
}

// The mark, behind the columns of the bytes before its place.
fn put_mark(pen: &mut Pen<'_>, before: &[u8])
    ensures { Puts pen.old (mark_text before.now) pen.new }
{
    for b in before {
        put_columns(pen, *b);
    }
    pen.text(b"^\n");
}

// What is kept of a refused line, its mark, and what to look at.
fn put_refused(pen: &mut Pen<'_>, line: &[u8], number: u8, place: u16)
    ensures { Puts pen.old (refused_text line.now number place) pen.new }
{
    let kept = &line[..line.len().min(1024)];
    put_visible(pen, kept);
    put_end(pen);
    put_mark(pen, &kept[..kept.len().min(place as usize)]);
    put_reason(pen, number, place);
}

// ---- a line

// A line that is not refused.
fn put_read(pen: &mut Pen<'_>, line: &[u8])
    requires { verdict_in (reading_of line.now) ≡ Ok tt }
    ensures { Puts pen.old (explained_of line.now) pen.new }
{
    if is_blank(line) {
        pen.text(b"  blank\n");
    } else {
        put_visible(pen, line);
        put_end(pen);
        put_parts(pen, line);
    }
}

fn put_line(pen: &mut Pen<'_>, line: &[u8])
    ensures { Puts pen.old (explained_of line.now) pen.new }
{
    match reading::verdict(line) {
        Ok(()) => put_read(pen, line),
        Err(Refusal { number, place }) => put_refused(pen, line, number, place as u16),
    }
}

fn hex_digit(n: u8) -> u8
    requires { n < 16 }
    ensures { result ≡ hex_digit n }
{
    match n {
        0..=9 => b'0' + n,
        _ => b'A' + (n - 10),
    }
}

// What to look at where a line is refused, by the refusal's number: README.md's words, which .ci/words holds to these.
fn words_of(number: u8) -> &'static [u8]
    ensures { result.now ≡ words_of number }
{
    match number {
        1 => b"the line has over 1,024 bytes after joining: a missing end of line, or noise",
        2 =>
            b"the byte there is outside 20h to 7Eh: noise, a tab, a key that sends an escape sequence",
        3 =>
            b"the line's last byte is a backtick that escapes nothing (only a line handed in directly; in a capture it would have joined)",
        4 => b"the quote that opens there is not closed",
        5 => b"the 65th term starts there",
        6 => b"no such verb; upper or lower case makes no difference, a quote in it does",
        7 => b"no such option; `-level=2` is one too: the argument is the next term",
        8 => b"this option was given before, by its long or its short name, in whichever case",
        9 => b"an option that takes an argument has none, or the next term starts with `-`",
        10 =>
            b"the argument is of its form up to there and no further: `02` for a number, a quote in a source; where nothing follows, more is wanted",
        11 => b"an option after the target or a property: options come first",
        12 =>
            b"the target is a path up to there and no further: a segment is `.`, `..`, or letters and a number; nor is it `SESSION`, which stays in capitals; where nothing follows, more is wanted",
        13 =>
            b"the property is `name`, `name=value` or `name==value` up to there and no further: a bare `,` `(` `)` `=` or `\"` inside a value wants quotes or a backtick; where nothing follows, more is wanted",
        14 => b"the 33rd property starts there",
        15 => b"a record of the lent tree is malformed, from that byte on",
        16 => b"the default target, or the node asked for, is no node of the tree",
        17 => b"`..` at the root",
        18 => b"no child of that tag and number; a tag's letters have the case that the tree has",
        19 =>
            b"the lent room is too small; for joining, a bad state or a line buffer that is not of 1,024 bytes",
        20 => b"the option there is known, but this verb can't have it: `cd -force`",
        _ => b"",
    }
}

// Whether a line has no part.
fn is_blank(line: &[u8]) -> bool
    ensures { result ≡ is_blank (left line.now first_cursor) }
{
    match Cursor::begin().next(line) {
        Ok(None) => true,
        Ok(Some(_)) => false,
        Err(_) => false,
    }
}

fn line_at_start(out: &mut [u8], line: &[u8]) -> usize
    ensures { PutsFirst out.old (explained_of line.now) out.new result }
{
    let mut pen = Pen::new(out);
    put_line(&mut pen, line);
    pen.at
}

fn refused_at_start(out: &mut [u8], line: &[u8], number: u8, place: u16) -> usize
    ensures { PutsFirst out.old (refused_text line.now number place) out.new result }
{
    let mut pen = Pen::new(out);
    put_refused(&mut pen, line, number, place);
    pen.at
}

fn cut_at_start(out: &mut [u8]) -> usize
    ensures { PutsFirst out.old cut_text out.new result }
{
    let mut pen = Pen::new(out);
    pen.text(b"  cut: the capture ends inside a line\n");
    pen.at
}

// A text at the start of the room, by what writes it there; tells how many bytes it has. It is measured in no room first: where it does not fit, nothing is
// written.
fn told<F: Fn(&mut [u8]) -> usize>(out: &mut [u8], put: F) -> Result<usize, Refusal>
    ghost t: { List ℕ }
    requires callable { F.IsAlwaysCallable put }
    requires puts { (room after : MutBor (List ℕ)) (n : ℕ) → F.post put room n after → PutsFirst room.now t after.now n }
    ensures { (result ≡ fitted (length out.old) t) × (out.new ≡ filled out.old t) }
{
    let n = put(&mut []);
    if out.len() < n {
        return Err(Refusal {
            number: 19,
            place: 0,
        });
    }
    put(out);
    Ok(n)
}

// The text of a line at the start of the room; tells how many bytes it has. Where it does not fit, nothing is written.
pub fn explain(line: &[u8], out: &mut [u8]) -> Result<usize, Refusal>
    ensures { (result ≡ fitted (length out.old) (explained_of line.now)) × (out.new ≡ filled out.old (explained_of line.now)) }
{
    told(out, move |room| line_at_start(room, line))
}

// The same of a line with a refusal that is not its reading's, as the joiner's of a line that is too long.
pub fn explain_refusal(
    line: &[u8],
    number: u8,
    place: u16,
    out: &mut [u8],
) -> Result<usize, Refusal>
    ensures { (result ≡ fitted (length out.old) (refused_text line.now number place)) × (out.new ≡ filled out.old (refused_text line.now number place)) }
{
    told(out, move |room| refused_at_start(room, line, number, place))
}

// The text of a capture's end inside a line.
pub fn explain_cut(out: &mut [u8]) -> Result<usize, Refusal>
    ensures { (result ≡ fitted (length out.old) cut_text) × (out.new ≡ filled out.old cut_text) }
{
    told(out, move |room| cut_at_start(room))
}
