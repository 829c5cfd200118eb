// Reads texts, one to a line, and writes for each its number as a verb and as an option, and whether it is `all` and
// `SESSION`; then for each number from 0 to 255 its two names as written into room of 16 bytes, the kind of its argument,
// its body's length and its record's; then, a row for each option number of 0 to 15 and 255 and in it a flag for each verb number of
// the same, whether the verb can have the option.
#![tactic(auto)]

use showing::{flag, number, say, split_line};
use words::Kind;

fn known(k: Option<u8>) {
    match k {
        Some(n) => number(usize::from(n)),
        None => say(b"- "),
    }
}

fn end() {
    say(b"\n");
}

// What a text is.
fn text(t: &[u8]) {
    known(words::verb(t));
    known(words::option(t));
    flag(words::is_all(t));
    flag(words::is_session(t));
    end();
}

fn texts(s: &[u8]) {
    let mut rest = s;
    while let Some((line, more)) = split_line(rest) {
        text(line);
        rest = more;
    }
}

fn kind(k: Kind) {
    say(match k {
        Kind::Mere => b"mere ",
        Kind::Keep => b"keep ",
        Kind::Level => b"level ",
        Kind::Place => b"place ",
        Kind::Entries => b"entries ",
    });
}

// The two names of a number, at a place of the room.
fn names(n: u8, at: usize) {
    let mut v = [b'.'; 16];
    number(words::put_verb_name(&mut v, at, n));
    say(&v);
    let mut o = [b'.'; 16];
    say(b" ");
    number(words::put_option_name(&mut o, at, n));
    say(&o);
    end();
}

// What a number is.
fn one(n: u8) {
    number(usize::from(n));
    kind(words::kind_of(n));
    known(words::body_len(n));
    number(words::record_len(n));
    end();
    names(n, 0);
    names(n, 10);
}

fn numbers() {
    for n in 0..=u8::MAX {
        one(n);
    }
}

// Of an option, whether each verb can have it.
fn row(option: u8) {
    for verb in (0..16).chain([255]) {
        flag(support::allows(verb, option));
    }
    end();
}

fn table() {
    for option in (0..16).chain([255]) {
        row(option);
    }
}

fn main() {
    let mut part = [0u8; 8192];
    let got = io::read_full(0, &mut part);
    texts(&part[..got]);
    numbers();
    table();
}
