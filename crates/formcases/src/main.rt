// Reads texts, one to a line, and writes what crate `forms` says of each: the tests on the whole text; what its first bytes
// are as a value, a property and items, for all of them, for a larger number and for half of them; the topic; the target;
// and the segments at each place where one can begin, at the end and far past it.
#![tactic(auto)]

use forms::{Piece, Shape, Where};
use showing::{flag, number, say, split_line};

// Nothing of the form.
fn none() {
    say(b"- ");
}

fn shape(s: Option<Shape>) {
    let Some(s) = s else {
        return none();
    };
    number(s.name);
    number(usize::from(s.operator));
}

// The first n bytes of s.
fn parts(s: &[u8], n: usize) {
    say(b"| ");
    flag(forms::is_text(s, n));
    flag(forms::is_list(s, n));
    flag(forms::is_value(s, n));
    shape(forms::property_of(s, n));
    flag(forms::are_entries(s, n));
    number(forms::entry_len(s, n));
}

fn target(w: Option<Where>) {
    let Some(w) = w else {
        return none();
    };
    match w {
        Where::Session => say(b"session "),
        Where::Path { rooted, segments } => {
            say(b"path ");
            flag(rooted);
            number(segments);
        }
    }
}

fn piece(p: Option<Piece>) {
    let Some(p) = p else {
        return none();
    };
    match p {
        Piece::Here { len } => {
            say(b"here ");
            number(len);
        }
        Piece::Above { len } => {
            say(b"above ");
            number(len);
        }
        Piece::Child {
            len,
            tag,
            number: n,
        } => {
            say(b"child ");
            number(len);
            number(tag);
            number(usize::from(n));
        }
        Piece::Children { len, tag } => {
            say(b"children ");
            number(len);
            number(tag);
        }
    }
}

fn segments(t: &[u8]) {
    piece(forms::segment_at(t, 0));
    for (i, b) in t.iter().enumerate() {
        if forms::is_separator(*b) {
            piece(forms::segment_at(t, i + 1));
        }
    }
    piece(forms::segment_at(t, t.len()));
    piece(forms::segment_at(t, usize::MAX));
}

fn show(t: &[u8]) {
    flag(forms::is_name(t));
    flag(forms::is_keep(t));
    flag(forms::is_level(t));
    flag(forms::is_place(t));
    parts(t, t.len());
    parts(t, usize::MAX);
    parts(t, t.len() / 2);
    say(b"| ");
    shape(forms::topic_of(t));
    target(forms::target_of(t));
    segments(t);
    say(b"\n");
}

fn texts(s: &[u8]) {
    let mut rest = s;
    while let Some((line, more)) = split_line(rest) {
        show(line);
        rest = more;
    }
}

fn main() {
    let mut all = io::large_buffer();
    let got = io::read_full(0, &mut all);
    texts(&all[..got]);
}
