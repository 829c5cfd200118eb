// Lists a board's reply from standard input, once all of it is read: its records as text, or its refusal. Where reading or writing fails it says so on standard
// error, with the number of lines written, and ends. Asked by an argument, it says what it is instead.
#![tactic(auto)]

ghost use Rattle.std.specs.Prelude.{◌≡◌, ◌+◌, ◌<◌, ◌≤◌, ◌∷◌, length};
ghost use Rattle.text.specs.Room.{high_low};
ghost use Rattle.console.specs.Bounds.{Held};

use console::{asks, count_words, read_some, tell, works, write_answer, write_text};
use replytext::record_text;
use std::io::{Error, Read};
use std::rt::{Clock, Env};
use text::Refusal;
use wording::records_text;

// Whole records: how many bytes they have, and how many they are.
#[derive(Clone, Copy)]
struct Part {
    len: usize,
    count: usize,
}

// Room for the records of any reply: it has at most 65,535 bytes, and a line of three gives nine.
fn records_room() -> [u8; 196608]
    ensures { 196608 ≡ length result }
{
    [0; 196608]
}

// Reads to the end of the input, or until the room is full: how many bytes.
fn read_input(rt: &impl Clock, input: &mut impl Read, bytes: &mut [u8]) -> Result<usize, Error>
    ensures { Held result (length bytes.new) }
{
    let mut len: usize = 0;
    for _ in 0..u64::MAX {
        if len == bytes.len() {
            break;
        }
        let n = read_some(rt, input, &mut bytes[len..])?;
        if n == 0 {
            break;
        }
        len += n;
    }
    Ok(len)
}

// How long the first of some records is; what is left, where none of any kind stands there whole.
fn first_len(records: &[u8]) -> usize
    requires { 0 < length records.now }
    ensures { (0 < result) × (result ≤ length records.now) }
{
    match words::reply_record_len(records[0]) {
        n if 0 < n && n <= records.len() => n,
        _ => records.len(),
    }
}

// The records up to the first that ends at 4,096 bytes or more.
fn first_part(records: &[u8]) -> Part
    requires { 0 < length records.now }
    ensures { (0 < result.len) × (result.len ≤ length records.now) }
{
    let mut len = 0;
    let mut count = 0;
    while len < records.len() && len < 4096 {
        len += first_len(&records[len..]);
        count += 1;
    }
    Part { len, count }
}

// The text of whole records, line after line, at the start of the room; tells how many bytes it is. Nothing is left out where there is room for 29 bytes more.
fn part_text(records: &[u8], text: &mut [u8]) -> usize
    ensures { result ≤ length text.new }
{
    let mut rest = records;
    let mut w = 0;
    while !rest.is_empty() && 29 <= text.len() - w {
        w += record_text(rest, &mut text[w..]);
        rest = &rest[first_len(rest)..];
    }
    w
}

// Writes the text of records, part after part; `lines` counts those whose text is written.
fn print_records(
    rt: &(impl Print + Clock),
    records: &[u8],
    text: &mut [u8],
    lines: &mut u64,
) -> Result<(), Error> {
    let mut rest = records;
    while !rest.is_empty() {
        let part = first_part(rest);
        let (whole, more) = rest.split_at(part.len);
        let n = part_text(whole, text);
        write_text(rt, &text[..n])?;
        *lines = lines.wrapping_add(part.count as u64);
        rest = more;
    }
    Ok(())
}

// The record of a refusal.
fn record_of(refusal: Refusal) -> [u8; 4]
    requires { refusal.place < 65536 }
    ensures { result ≡ 5 ∷ refusal.number ∷ high_low refusal.place }
{
    let [high, low] = (refusal.place as u16).to_be_bytes();
    [5, refusal.number, high, low]
}

// Writes what reading a reply gives, or says that writing failed.
fn print_reply(rt: &(impl Print + Clock), reply: &[u8], records: &mut [u8], text: &mut [u8]) {
    let mut lines = 0;
    let printed = match replies::read(reply, records) {
        Ok(n) => print_records(rt, &records[..n], text, &mut lines),
        Err(refusal) => {
            let answer = records_text(&record_of(refusal), text);
            write_answer(rt, answer, text)
        }
    };
    if let Err(why) = printed {
        tell(b"clpreply: writing failed after ", lines, &why);
    }
}

// Lists standard input. A byte more than a reply may have is read, so that a longer one is refused as such.
fn list(rt: &(impl Print + Clock), input: &mut impl Read) {
    let mut bytes = io::large_buffer();
    match read_input(rt, input, &mut bytes) {
        Err(why) => tell(b"clpreply: reading failed after ", 0, &why),
        Ok(n) => {
            let mut records = records_room();
            let mut text = io::large_buffer();
            print_reply(rt, &bytes[..n], &mut records, &mut text);
        }
    }
}

fn main(rt: HostRuntime) {
    let mut word = [0u8; 16];
    let n = rt.arg(1, &mut word).unwrap_or(0);
    let asked = asks(count_words(&rt), &word[..n]);
    if works(
        &rt,
        asked,
        b"usage: clpreply [--help | --version] < REPLY\n\nLists what a board answered to an SM CLP command, in keyword format: a line for\neach of these, or a refusal alone.\n\n  item POSITION LENGTH POSITION LENGTH\n  group POSITION LENGTH\n  endgroup\n  endoutput\n  refusal NUMBER PLACE\n\nAn item's keyword comes first, then its value. Positions and places count bytes of\nthe reply from 0. Where reading or writing fails, standard error says so.\n",
        b"clpreply 0.1.0\n",
        b"clpreply: it takes --help or --version, or no argument and a reply on standard input\n",
        b"clpreply: writing failed after ",
    ) {
        list(&rt, &mut rt.stdin());
    }
}
