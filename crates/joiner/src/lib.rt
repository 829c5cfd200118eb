// Joins the bytes of a console capture into lines.
#![tactic(auto)]

ghost use Rattle.std.specs.Prelude.{◌≡◌, true, false, eqb, length, get_or, set, drop, ℕ, ◌+◌, ◌≤◌, ◌<◌};
ghost use Rattle.std.specs.List.{list_any};
ghost use Rattle.std.proofs.lemmas.List.Edits.{sets};
ghost use Rattle.joiner.specs.Lines.{byte_kind, is_plain_byte};
ghost use Rattle.joiner.specs.Step.{start, st, reachable, pushed, byte_step, stored, end_step, marks, stepped_of};
ghost use Rattle.joiner.specs.Join.{run, join_of, end_of};

use text::Refusal;

// What the bytes so far have left: how many bytes of the line the buffer holds, whether a GRAVE waits,
// whether the last byte was a CR, and whether the line has passed 1,024 bytes.
#[derive(Clone, Copy)]
pub struct Joiner {
    pub held: usize,
    pub grave: bool,
    pub cr: bool,
    pub over: bool,
}

// What a call gives: the state, how many bytes were used, and how many bytes the line has that they ended, none where they ended none, or the line's refusal.
#[derive(Clone, Copy)]
pub struct Joined {
    pub state: Joiner,
    pub used: usize,
    pub outcome: Result<Option<usize>, Refusal>,
}

// The end of a capture: nothing is open, or a line is cut.
#[derive(Clone, Copy)]
pub enum End {
    Nothing,
    Cut,
}

// What one byte does: the next state, and the line that it ends.
#[derive(Clone, Copy)]
struct Stepped {
    state: Joiner,
    outcome: Result<Option<usize>, Refusal>,
}

// Where a run of plain bytes has come to: how many bytes of the line are held, and the place in the part.
#[derive(Clone, Copy)]
struct Passed {
    held: usize,
    at: usize,
}

// Whether a byte is no CR, LF or GRAVE. Most bytes are passed by the first two tests: one `matches!`, or one expression, is three comparisons a
// byte, and was tried and joined a tenth slower.
#[tactic(auto, unfolding(crate::specs::Lines::byte_kind))]
fn ordinary(x: u8) -> bool
    ensures { result ≡ is_plain_byte (byte_kind x) }
{
    if x == b'`' {
        return false;
    }
    if b'\r' < x {
        return true;
    }
    x != b'\r' && x != b'\n'
}

// Whether a block has a byte. The loop does not end at the first, so that all sixteen are compared at once.
fn has(block: [u8; 16], x: u8) -> bool
    ensures { result ≡ list_any (λ b. eqb b x) block }
{
    let mut found = false;
    for b in block {
        found |= b == x;
    }
    found
}

// Whether a block has no CR, LF or GRAVE.
fn all_plain(block: [u8; 16]) -> bool
    ensures { result ≡ true → (k : ℕ) → k < 16 → is_plain_byte (byte_kind (get_or block k 0)) ≡ true }
{
    !(has(block, b'`') | has(block, b'\r') | has(block, b'\n'))
}

// Stores a block from `at` on, by a loop, which becomes one store: `copy_from_slice` tests for an overlap, and took up to a third more instructions.
fn put(buffer: &mut [u8; 1024], at: usize, block: [u8; 16])
    requires { at + 16 ≤ 1024 }
    ensures { buffer.new ≡ sets buffer.old at block }
{
    for k in 0..16usize {
        buffer[at + k] = block[k];
    }
}

impl Joiner {
    pub fn new() -> Self
        ensures { result ≡ start }
    {
        Joiner::fresh(false)
    }

    // The state at the start of a line: whether the byte before it was a CR is as given.
    fn fresh(cr: bool) -> Self
        ensures { result ≡ st 0 false cr false }
    {
        Joiner {
            held: 0,
            grave: false,
            cr,
            over: false,
        }
    }

    // Whether some capture leads to this state.
    #[tactic(auto, unfolding(crate::specs::Step::reachable))]
    fn possible(self) -> bool
        ensures { result ≡ reachable self }
    {
        self.held <= 1024 && (!self.over || 1024 <= self.held) && !(self.grave && self.cr)
    }

    // One byte more for the line.
    fn push(self, buffer: &mut [u8; 1024], x: u8) -> Self
        ensures value { result ≡ pushed self }
        ensures buffer_after { buffer.new ≡ set buffer.old self.held x }
    {
        let at = self.held;
        if at < 1024 {
            buffer[at] = x;
            return Joiner {
                held: at + 1,
                ..self
            };
        }
        Joiner { over: true, ..self }
    }

    // An end of line: a GRAVE before it joins. Otherwise the line is given, or refused, and the next one begins.
    fn ended(self, cr: bool) -> Stepped
        ensures { result ≡ stepped_of (end_step cr self) }
    {
        if self.grave {
            return Stepped {
                state: Joiner {
                    held: self.held,
                    grave: false,
                    cr,
                    over: self.over,
                },
                outcome: Ok(None),
            };
        }
        let next = Joiner::fresh(cr);
        if self.over {
            return Stepped {
                state: next,
                outcome: Err(Refusal {
                    number: 1,
                    place: 1024,
                }),
            };
        }
        Stepped {
            state: next,
            outcome: Ok(Some(self.held)),
        }
    }

    // The line goes on after a byte that was no CR: whether a GRAVE waits is as given. States are made anew: one that is changed in place is
    // copied whole at each byte.
    fn marked(self, grave: bool) -> Self
        ensures { result ≡ (marks grave self).state }
    {
        Joiner {
            grave,
            cr: false,
            ..self
        }
    }

    // One byte of the capture.
    fn step(self, buffer: &mut [u8; 1024], x: u8) -> Stepped
        ensures value { result ≡ stepped_of (byte_step self x) }
        ensures buffer_after { buffer.new ≡ stored self.held buffer.old (byte_step self x).put }
    {
        if x == 13 {
            return self.ended(true);
        }
        if x == 10 {
            if self.cr {
                return Stepped {
                    state: self.marked(self.grave),
                    outcome: Ok(None),
                };
            }
            return self.ended(false);
        }
        if self.grave {
            let one = self.marked(false).push(buffer, 96);
            let two = one.push(buffer, x);
            return Stepped {
                state: two,
                outcome: Ok(None),
            };
        }
        if x == 96 {
            return Stepped {
                state: self.marked(true),
                outcome: Ok(None),
            };
        }
        let one = self.marked(false).push(buffer, x);
        Stepped {
            state: one,
            outcome: Ok(None),
        }
    }

    // The place up to which a part may be passed from `at` on: as far as there is room, or, of a line that is too long, to its end.
    fn limit(self, length: usize, at: usize) -> usize
        requires held_bound { self.held ≤ 1024 }
        requires at_in_bounds { at ≤ length }
        ensures lower_bound { at ≤ result }
        ensures upper_bound { result ≤ length }
        ensures room { self.over ≡ false → result + self.held ≤ at + 1024 }
    {
        if self.over {
            length
        } else {
            at + (length - at).min(1024 - self.held)
        }
    }

    // Passes plain bytes of a part from `at` on, as many as there is room for; where a GRAVE waits or a CR was just seen, none. Whole blocks go first;
    // a line that is too long keeps none of them, and passes no others. The last bytes are stored one by one as they are tested: to look for their
    // end first and copy them then was tried, and joined a tenth slower.
    fn pass(self, buffer: &mut [u8; 1024], part: &[u8], mut at: usize) -> Passed
        requires self_value { reachable self ≡ true }
        requires at_in_bounds { at ≤ length part.now }
        ensures at_le_at { at ≤ result.at }
        ensures at_in_bounds_2 { result.at ≤ length part.now }
        ensures over_value { reachable (st result.held self.grave self.cr self.over) ≡ true }
        ensures part_value { run at self buffer.old (drop at part.now) ≡ run result.at (st result.held self.grave self.cr self.over) buffer.new (drop result.at part.now) }
    {
        let mut held = self.held;
        if self.grave || self.cr {
            return Passed { held, at };
        }
        let end = self.limit(part.len(), at);
        while let Some(&block) = part[at..end].first_chunk() {
            if !all_plain(block) {
                break;
            }
            if !self.over {
                put(buffer, held, block);
                held += 16;
            }
            at += 16;
        }
        if self.over {
            return Passed { held, at };
        }
        while at < end && ordinary(part[at]) {
            buffer[held] = part[at];
            held += 1;
            at += 1;
        }
        Passed { held, at }
    }

    // What a call gives. The state is made anew, part by part: handed on whole it took up to an eighth more instructions.
    fn joined(self, used: usize, outcome: Result<Option<usize>, Refusal>) -> Joined
        ensures { result ≡ record { state = self; used = used; outcome = outcome } }
    {
        Joined {
            state: Joiner { ..self },
            used,
            outcome,
        }
    }

    // The bytes of a part, up to and including the one that ends a line, or all of them. By the place, which `pass` moves by many bytes at once.
    fn take(mut self, buffer: &mut [u8; 1024], part: &[u8]) -> Joined
        requires { reachable self ≡ true }
        ensures value { result ≡ (run 0 self buffer.old part.now).answer }
        ensures buffer_after { buffer.new ≡ (run 0 self buffer.old part.now).buffer }
    {
        let mut i = 0;
        while i < part.len() {
            let Stepped { state, outcome } = self.step(buffer, part[i]);
            i += 1;
            match outcome {
                Ok(None) => {
                    let q = state.pass(buffer, part, i);
                    self = Joiner {
                        held: q.held,
                        ..state
                    };
                    i = q.at;
                }
                Ok(Some(_)) => return state.joined(i, outcome),
                Err(_) => return state.joined(i, outcome),
            }
        }
        self.joined(i, Ok(None))
    }

    // Takes the bytes of a part, up to and including the one that ends a line, or all of them.
    pub fn join(self, buffer: &mut [u8], part: &[u8]) -> Joined
        ensures value { result ≡ (join_of self buffer.old part.now).answer }
        ensures buffer_after { buffer.new ≡ (join_of self buffer.old part.now).buffer }
    {
        match buffer.as_mut_array() {
            Some(line) if self.possible() => self.take(line, part),
            _ => Joined {
                state: self,
                used: 0,
                outcome: Err(Refusal {
                    number: 19,
                    place: 0,
                }),
            },
        }
    }

    // The end of the capture.
    pub fn end(self) -> Result<End, Refusal>
        ensures { result ≡ end_of self }
    {
        if !self.possible() {
            return Err(Refusal {
                number: 19,
                place: 0,
            });
        }
        if 0 < self.held || self.grave {
            return Ok(End::Cut);
        }
        Ok(End::Nothing)
    }
}
