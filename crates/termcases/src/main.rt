// Reads cases from standard input, each its length in two bytes, high first, and then its bytes, and writes what crate
// `terms` says of each: the refusal of rows 1 to 5, the terms, the terms found from place 1 and from the last number, tests, and
// the bytes that it stands for, as runs of equal bytes, in enough room and in four bytes of room filled with dots.
#![tactic(auto)]

use showing::{answered, flag, number, part_at, refusal, runs, say, two_at};
use terms::Span;

fn verdict(line: &[u8]) {
    match terms::lexical(line) {
        Ok(()) => say(b"fine "),
        Err(r) => refusal(r),
    }
}

// Where a term stands.
fn span(s: Span) {
    number(s.at);
    number(s.len);
}

// The term that a scan from a place finds.
fn found(line: &[u8], at: usize) {
    say(b"from ");
    match terms::term_at(line, at) {
        Some(s) => span(s),
        None => say(b"none "),
    }
}

// All terms, going on from the end of each.
fn all_terms(line: &[u8]) {
    say(b"terms ");
    let mut at: usize = 0;
    while let Some(s) = terms::term_at(line, at) {
        span(s);
        at = s.at + s.len;
    }
}

fn tests(line: &[u8]) {
    say(b"tests ");
    flag(terms::has_bare(line, b'='));
    flag(terms::has_quote(line));
    flag(terms::starts_bare(line, b'-'));
    flag(terms::starts_bare(line, b'`'));
}

// The answer of writing the bytes that a line stands for, and what the room then holds.
fn written(line: &[u8], room: &mut [u8]) {
    answered(terms::write_meant(line, room));
    runs(room);
}

fn meanings(line: &[u8]) {
    say(b"means ");
    number(terms::meant_len(line));
    let mut room = [b'.'; 1030];
    written(line, &mut room);
    let mut small = [b'.'; 4];
    written(line, &mut small);
}

fn show(line: &[u8]) {
    verdict(line);
    all_terms(line);
    found(line, 1);
    found(line, usize::MAX);
    tests(line);
    meanings(line);
    say(b"\n");
}

fn cases(input: &[u8]) {
    let mut at: usize = 0;
    // By the place: a case is read at several offsets from it.
    while at < input.len() {
        let Some(p) = part_at(input, at, 2, two_at(input, at, 0)) else {
            say(b"cut\n");
            return;
        };
        at = p.end;
        show(&input[p.start..p.end]);
    }
}

fn main() {
    let mut all = io::large_buffer();
    let got = io::read_full(0, &mut all);
    cases(&all[..got]);
}
