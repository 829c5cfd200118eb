// Lists a console capture from standard input: the records of each line as text, written before the next read. Where reading or writing fails it says so on
// standard error, with the number of lines listed, and ends. Asked by an argument, it says what it is instead.
#![tactic(auto)]

ghost use Rattle.std.specs.Prelude.{◌≡◌, true};
ghost use Rattle.lister.specs.Lister.{fit};

use console::{Made, Work, asks, count_words, work_through, works};
use joiner::Joiner;
use lister::end_answer;
use printing::print_part;
use std::rt::Env;
use text::Refusal;
use wording::records_text;

// What is under way: the joiner's state and its line buffer, such as some capture leads to.
#[derive(Clone, Copy)]
struct Listing {
    state: Joiner,
    line: [u8; 1024],
    ghost fits: { fit state line ≡ true },
}

impl Listing {
    fn new() -> Self {
        Listing {
            state: Joiner::new(),
            line: [0; 1024],
        }
    }
}

impl Work for Listing {
    fn take(&mut self, part: &[u8], text: &mut [u8; 65536]) -> Made {
        let printed = print_part(self.state, &mut self.line, part, text);
        self.state = printed.state;
        Made {
            used: printed.used,
            lines: printed.lines,
            answer: printed.answer,
        }
    }

    fn end(&mut self, text: &mut [u8; 65536]) -> Option<Result<usize, Refusal>> {
        let mut room = [0u8; 399];
        match end_answer(self.state, &mut room).ok()? {
            None => Some(Ok(0)),
            Some(n) => Some(records_text(&room[..n], text)),
        }
    }
}

fn main(rt: HostRuntime) {
    let mut word = [0u8; 16];
    let n = rt.arg(1, &mut word).unwrap_or(0);
    let asked = asks(count_words(&rt), &word[..n]);
    if works(
        &rt,
        asked,
        b"usage: clplist [--help | --version] < CAPTURE\n\nLists a console capture of SM CLP commands: a line for each part of each command.\n\n  verb NUMBER\n  option NUMBER POSITION LENGTH\n  target POSITION LENGTH\n  property POSITION LENGTH OPERATOR POSITION LENGTH\n  refusal NUMBER PLACE\n  blank\n  cut\n\nPositions and places count bytes of the line from 0; cut: the capture ends inside\na line. Where reading or writing fails, standard error says so.\n",
        b"clplist 0.1.0\n",
        b"clplist: it takes --help or --version, or no argument and a capture on standard input\n",
        b"clplist: writing failed after ",
    ) {
        work_through(
            &rt,
            &mut rt.stdin(),
            &mut Listing::new(),
            b"clplist: reading failed after ",
            b"clplist: writing failed after ",
            b"clplist: listing was refused\n",
        );
    }
}
