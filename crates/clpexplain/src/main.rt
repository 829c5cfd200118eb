// Explains a console capture from standard input, for a person: the text of each line is written before the next one is joined. Where reading or writing fails
// it says so on standard error, with the number of lines explained, and ends. Asked by an argument, it says what it is instead.
#![tactic(auto)]

ghost use Rattle.std.specs.Prelude.{◌≡◌, true};
ghost use Rattle.joiner.specs.Step.{reachable};
ghost use Rattle.lister.specs.Listing.{Sane};

use console::{Made, Work, asks, count_words, work_through, works};
use explaining::{explain, explain_cut, explain_refusal};
use joiner::{End, Joiner};
use std::rt::Env;
use text::Refusal;

// What is under way: the joiner's state, such as some capture leads to, and its line buffer.
#[derive(Clone, Copy)]
struct Explaining {
    state: Joiner,
    line: [u8; 1024],
    ghost reached: { reachable state ≡ true },
}

impl Explaining {
    fn new() -> Self {
        Explaining {
            state: Joiner::new(),
            line: [0; 1024],
        }
    }
}

// The text of what a call of the joiner gave, at the start of the room for it; none where no line ended.
fn put_outcome(
    outcome: Result<Option<usize>, Refusal>,
    line: &[u8],
    text: &mut [u8],
) -> Result<usize, Refusal>
    requires { Sane outcome line.now }
{
    match outcome {
        Ok(None) => Ok(0),
        Ok(Some(n)) => explain(&line[..n], text),
        Err(flaw) => explain_refusal(line, flaw.number, flaw.place as u16, text),
    }
}

impl Work for Explaining {
    fn take(&mut self, part: &[u8], text: &mut [u8; 65536]) -> Made {
        let joined = self.state.join(&mut self.line, part);
        self.state = joined.state;
        let outcome = joined.outcome;
        Made {
            used: joined.used,
            lines: if let Ok(None) = outcome { 0 } else { 1 },
            answer: put_outcome(outcome, &self.line, text),
        }
    }

    fn end(&mut self, text: &mut [u8; 65536]) -> Option<Result<usize, Refusal>> {
        match self.state.end().ok()? {
            End::Nothing => Some(Ok(0)),
            End::Cut => Some(explain_cut(text)),
        }
    }
}

fn main(rt: HostRuntime) {
    let mut word = [0u8; 16];
    let n = rt.arg(1, &mut word).unwrap_or(0);
    let asked = asks(count_words(&rt), &word[..n]);
    if works(
        &rt,
        asked,
        b"usage: clpexplain [--help | --version] < CAPTURE\n\nExplains a console capture of SM CLP commands to a person: each line, and below it\nwhat its parts are, or a mark under the byte at which it is refused, with the\nrefusal's number, its place and why. Places count bytes of the line from 0.\nWhere reading or writing fails, standard error says so.\n",
        b"clpexplain 0.1.0\n",
        b"clpexplain: it takes --help or --version, or no argument and a capture on standard input\n",
        b"clpexplain: writing failed after ",
    ) {
        work_through(
            &rt,
            &mut rt.stdin(),
            &mut Explaining::new(),
            b"clpexplain: reading failed after ",
            b"clpexplain: writing failed after ",
            b"clpexplain: explaining was refused\n",
        );
    }
}
