// What the programs share: what they are asked, reading what is there, handing over a text, and saying on standard error what failed.
// What is read and written no contract can speak of.
#![tactic(auto)]

ghost use Rattle.std.specs.Prelude.{◌≡◌, ◌<◌, ◌≤◌, length};
ghost use Rattle.std.specs.IoError.{error_kind};
ghost use Rattle.console.specs.Asked.{asked_of, is_work};
ghost use Rattle.console.specs.Bounds.{Held, Taken, ToldAll};

use std::env::FillError;
use std::io::{Error, ErrorKind, Read, Write};
use std::rt::{Clock, Env};
use std::thread;
use std::time::Duration;
use text::Refusal;

// Standard error.
const STDERR: i32 = 2;

// What a program is asked by its arguments: to do its work, what it is for, which it is, or something that it does not know.
#[derive(Clone, Copy)]
pub enum Asked {
    Work,
    Help,
    Version,
    Other,
}

// How many words a program was started with, its own name among them; 3 stands for any more.
pub fn count_words(rt: &impl Env) -> usize
    ensures { result ≤ 3 }
{
    let mut room = [0u8; 1];
    for n in 0..3 {
        if let Err(FillError::NotPresent) = rt.arg(n, &mut room) {
            return n;
        }
    }
    3
}

// What the words ask that a program was started with: how many there are, its own name among them, and the first after that.
#[tactic(auto, unfolding(crate::specs::Asked::asked_of, crate::specs::Asked::asked_by, text::specs::Bytes::bytes))]
pub fn asks(words: usize, first: &[u8]) -> Asked
    ensures { result ≡ asked_of words first.now }
{
    match words {
        0 | 1 => Asked::Work,
        2 if text::same(first, b"--help") => Asked::Help,
        2 if text::same(first, b"--version") => Asked::Version,
        _ => Asked::Other,
    }
}

// Whether a program is to do its work. Asked for something else, it is answered here: by its help or its version, or by what it says of other arguments;
// `failed` begins what is said where writing fails.
pub fn works(
    rt: &(impl Print + Clock),
    asked: Asked,
    help: &[u8],
    version: &[u8],
    other: &[u8],
    failed: &[u8],
) -> bool
    ensures { result ≡ is_work asked }
{
    match asked {
        Asked::Work => return true,
        Asked::Help => say(rt, help, failed),
        Asked::Version => say(rt, version, failed),
        Asked::Other => {
            io::write_all(STDERR, other);
        }
    }
    false
}

// Writes a text to standard output; where that fails, says so on standard error.
fn say(rt: &(impl Print + Clock), text: &[u8], failed: &[u8]) {
    if let Err(left) = write_text(rt, text) {
        tell(failed, 0, &left.why);
    }
}

// Why something failed that is no call's failure.
pub fn no_failure() -> Error
    ensures { error_kind result ≡ ErrorKind.Other }
{
    Error::from(ErrorKind::Other)
}

// Waits a millisecond.
fn pause(rt: &impl Clock) {
    thread::sleep(rt, Duration::from_millis(1));
}

// After a call that failed: it is to be tried again, at once where it was interrupted, and after a pause where it would have had to wait; else it has failed.
fn again(rt: &impl Clock, why: Error) -> Result<(), Error> {
    match why.kind() {
        ErrorKind::Interrupted => Ok(()),
        ErrorKind::WouldBlock => {
            pause(rt);
            Ok(())
        }
        _ => Err(why),
    }
}

// Says on standard error what failed, after how many lines, and why; nothing where nobody reads the output any more.
pub fn tell(what: &[u8], lines: u64, why: &Error) {
    if why.kind() == ErrorKind::BrokenPipe {
        return;
    }
    io::write_all(STDERR, what);
    io::print_decimal(STDERR, lines);
    io::write_all(STDERR, b" lines: ");
    tell_why(why);
    io::write_all(STDERR, b"\n");
}

// Says on standard error why a call failed, in the system's own words: without the error's number, which `Display` puts behind them.
fn tell_why(why: &Error) {
    let mut room = [0u8; 256];
    let mut rest: &mut [u8] = &mut room;
    let _ = write!(rest, "{why}");
    let left = rest.len();
    let end = room.len().saturating_sub(left);
    let said = std::str::from_utf8(&room[..end]).unwrap_or("");
    let words = match said.split_once(" (os error ") {
        Some((before, _)) => before,
        None => said,
    };
    io::write_all(STDERR, words.as_bytes());
}

// Reads what is there, and waits only where nothing is: how many bytes now stand at the start of what was lent, none at the end of the input.
pub fn read_some(rt: &impl Clock, input: &mut impl Read, bytes: &mut [u8]) -> Result<usize, Error>
    ensures { Held result (length bytes.new) }
{
    for _ in 0..u64::MAX {
        match input.read(bytes) {
            Ok(n) => return Ok(n),
            Err(why) => again(rt, why)?,
        }
    }
    Err(no_failure())
}

// A text that was not written whole: how many of its bytes were taken, and why no more were.
#[derive(Clone, Copy)]
pub struct Unwritten {
    pub taken: usize,
    pub why: Error,
}

impl From<Unwritten> for Error {
    fn from(left: Unwritten) -> Error {
        left.why
    }
}

// Writes a text to standard output, all of it: how many bytes those are; or how many were taken, where writing failed.
pub fn write_text(rt: &(impl Print + Clock), text: &[u8]) -> Result<usize, Unwritten>
    ensures { Taken result (length text.now) }
{
    let mut taken: usize = 0;
    for _ in 0..u64::MAX {
        if text.len() <= taken {
            return Ok(taken);
        }
        match rt.write_some(&text[taken..]) {
            Ok(0) => pause(rt),
            Ok(put) => taken += put,
            Err(why) => {
                if let Err(why) = again(rt, why) {
                    return Err(Unwritten { taken, why });
                }
            }
        }
    }
    Err(Unwritten {
        taken,
        why: no_failure(),
    })
}

// Writes the text at a room's start that an answer tells of, all of it. A refusal has none, and neither has an answer that tells of more than the room holds.
pub fn write_answer(
    rt: &(impl Print + Clock),
    answer: Result<usize, Refusal>,
    room: &[u8],
) -> Result<(), Error>
    ensures { ToldAll result answer (length room.now) }
{
    match answer {
        Ok(n) if n <= room.len() => {
            write_text(rt, &room[..n])?;
            Ok(())
        }
        _ => Err(no_failure()),
    }
}

// ---- a capture, part by part

// What a call made of a part: how many bytes at its front were used, how many lines ended in them, and the answer for the text of these.
#[derive(Clone, Copy)]
pub struct Made {
    pub used: usize,
    pub lines: usize,
    pub answer: Result<usize, Refusal>,
}

// What a program makes of a capture. A call uses no more than a part has, and something where there is something.
pub trait Work {
    // The text of the lines that end at the front of a part, at the room's start.
    fn take(&mut self, part: &[u8], text: &mut [u8; 65536]) -> Made
        ensures used_in_bounds { result.used ≤ length part.now }
        ensures goes_on { 0 < length part.now → 0 < result.used };

    // The text of what the capture's end says, at the room's start; none where the end is refused, which no capture leads to.
    fn end(&mut self, text: &mut [u8; 65536]) -> Option<Result<usize, Refusal>>;
}

// Why a capture was not worked through: reading failed, writing did, or its end was refused.
#[derive(Drop)]
enum Failure {
    Reading(Error),
    Writing(Error),
    Refused,
}

// Hands on a part of the capture, call after call, and writes the text of each; `lines` counts those whose text is written.
fn feed(
    rt: &(impl Print + Clock),
    work: &mut impl Work,
    part: &[u8],
    text: &mut [u8; 65536],
    lines: &mut u64,
) -> Result<(), Error> {
    let mut rest = part;
    while !rest.is_empty() {
        let made = work.take(rest, text);
        rest = &rest[made.used..];
        write_answer(rt, made.answer, text)?;
        *lines = lines.wrapping_add(made.lines as u64);
    }
    Ok(())
}

// Reads to the end of the input and hands on what is read, and then the end.
fn try_through(
    rt: &(impl Print + Clock),
    input: &mut impl Read,
    work: &mut impl Work,
    lines: &mut u64,
) -> Result<(), Failure> {
    let mut bytes = io::large_buffer();
    let mut text = io::large_buffer();
    for _ in 0..u64::MAX {
        let n = read_some(rt, input, &mut bytes).map_err(Failure::Reading)?;
        if n == 0 {
            break;
        }
        feed(rt, work, &bytes[..n], &mut text, lines).map_err(Failure::Writing)?;
    }
    let answer = work.end(&mut text).ok_or(Failure::Refused)?;
    write_answer(rt, answer, &text).map_err(Failure::Writing)
}

// Works a capture through from an input: the text of each part of it is written before the next read. Where reading or writing fails, says so on standard error,
// with the number of lines whose text was written; `reading`, `writing` and `refused` are what it says there.
pub fn work_through(
    rt: &(impl Print + Clock),
    input: &mut impl Read,
    work: &mut impl Work,
    reading: &[u8],
    writing: &[u8],
    refused: &[u8],
) {
    let mut lines = 0;
    match try_through(rt, input, work, &mut lines) {
        Ok(()) => {}
        Err(Failure::Reading(why)) => tell(reading, lines, &why),
        Err(Failure::Writing(why)) => tell(writing, lines, &why),
        Err(Failure::Refused) => {
            io::write_all(STDERR, refused);
        }
    }
}
