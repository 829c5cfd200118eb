// A line's reading: its items one step at a time, its records, its target.
#![tactic(auto)]

ghost use Rattle.std.specs.Prelude.{◌≡◌, [], ◌∷◌, true, false, ◌+◌, ◌-◌, ◌/◌, ◌%◌, ◌≤◌, ◌<◌, length, take, get_or, set};
ghost use Rattle.std.proofs.lemmas.List.Edits.{sets};
ghost use Rattle.text.specs.Lists.{is_nil};
ghost use Rattle.text.specs.Room.{fitted, filled};
ghost use Rattle.terms.specs.declared.Mode.TheVariants.{Out};
ghost use Rattle.terms.specs.Signs.{signs};
ghost use Rattle.terms.specs.Scan.{span};
ghost use Rattle.terms.specs.Terms.{terms_of};
ghost use Rattle.words.specs.Words.{kind_of};
ghost use Rattle.reach.specs.Reach.{reach_of};
ghost use Rattle.reading.specs.Command.{argument_form};
ghost use Rattle.reading.specs.Reading.{decide_verb, decide_option, decide_argument, decide_target, decide_property, decide_after, decide_in, phase_after, waiting_form, property_form, form_asked, past_start, reading_of};
ghost use Rattle.reading.specs.Records.{part, field_bytes, bytes_of, option_fields, value_span, record_of, answer_in, room_in, refusal_record, cut_record, target_in, target_part};
ghost use Rattle.reading.specs.Cursor.{decided_of, next_shown, offer_end, offer_of, step, step_of, left, first_cursor};
ghost use Rattle.reading.specs.Shown.{verdict_in, needed_in, by_shape, argument_if, name_size, counted, records_in, total_from, bytes_in, is_target};

use forms::Shape;
use reach::Form;
use terms::Span;
use text::Refusal;
use words::Kind;

// What may come next.
#[derive(Clone, Copy)]
pub enum Phase {
    First,
    Options,
    Waits(u8),
    Rest,
}

// What the terms so far have left: what may come next, the verb's number (0 before it), the options seen, the properties counted.
#[derive(Clone, Copy)]
pub struct State {
    pub phase: Phase,
    pub verb: u8,
    pub seen: [bool; 13],
    pub count: usize,
}

// A part of the command, by numbers.
#[derive(Clone, Copy)]
pub enum Shown {
    Verb(u8),
    Option(u8),
    Argument(u8),
    Target,
    Property { name: usize, operator: u8 },
}

#[derive(Clone, Copy)]
pub struct Cursor {
    pub at: usize,
    pub state: State,
}

// A term that is offered: as which part, and where it stands.
#[derive(Clone, Copy)]
pub struct Offered {
    pub item: Shown,
    pub term: Span,
}

// ---- the decision on one term, by what may come next and by the term's own bytes: which part it is, or the number of its refusal, a code of the papers

fn decide_verb(t: &[u8]) -> Result<Shown, u8>
    ensures { result ≡ decided_of (decide_verb (signs Out t.now)) }
{
    let n = words::verb(t).ok_or(6)?;
    Ok(Shown::Verb(n))
}

fn was_seen(seen: [bool; 13], n: u8) -> bool
    ensures { result ≡ get_or seen n false }
{
    seen.get(usize::from(n)).copied().unwrap_or(false)
}

fn decide_option(t: &[u8], verb: u8, seen: [bool; 13]) -> Result<Shown, u8>
    ensures { result ≡ decided_of (decide_option verb seen (signs Out t.now)) }
{
    let (_, name) = t.split_first().ok_or(7)?;
    let n = words::option(name).ok_or(7)?;
    if !support::allows(verb, n) {
        return Err(20);
    }
    if was_seen(seen, n) {
        return Err(8);
    }
    Ok(Shown::Option(n))
}

fn argument_if(fits: bool, option: u8) -> Result<Shown, u8>
    ensures { result ≡ argument_if fits option }
{
    if fits {
        return Ok(Shown::Argument(option));
    }
    Err(10)
}

// The argument is the first n bytes of s. Here and below a term comes with a count, for the rules hand it on as the part of the line where it begins.
fn decide_argument(s: &[u8], n: usize, option: u8) -> Result<Shown, u8>
    requires { n ≤ length s.now }
    ensures { result ≡ decided_of (decide_argument option (signs Out (take n s.now))) }
{
    let t = &s[..n];
    if terms::starts_bare(t, b'-') {
        return Err(9);
    }
    match words::kind_of(option) {
        Kind::Mere => Err(10),
        Kind::Keep => argument_if(forms::is_keep(t), option),
        Kind::Level => argument_if(forms::is_level(t), option),
        Kind::Place => argument_if(forms::is_place(t), option),
        Kind::Entries => argument_if(forms::are_entries(s, n), option),
    }
}

fn decide_target(t: &[u8]) -> Result<Shown, u8>
    ensures { result ≡ decided_of (decide_target (signs Out t.now)) }
{
    forms::target_of(t).ok_or(12)?;
    Ok(Shown::Target)
}

fn by_shape(k: Option<Shape>) -> Result<Shown, u8>
    ensures { result ≡ by_shape k }
{
    let Shape { name, operator } = k.ok_or(13)?;
    Ok(Shown::Property { name, operator })
}

fn decide_property(s: &[u8], n: usize, help: bool, count: usize) -> Result<Shown, u8>
    requires { n ≤ length s.now }
    ensures { result ≡ decided_of (decide_property help count (signs Out (take n s.now))) }
{
    if 32 <= count {
        return Err(14);
    }
    if help {
        return by_shape(forms::topic_of(&s[..n]));
    }
    by_shape(forms::property_of(s, n))
}

// The first term after the options: the target, unless the verb is help or it has a bare `=`.
fn decide_after(s: &[u8], n: usize, help: bool, count: usize) -> Result<Shown, u8>
    requires { n ≤ length s.now }
    ensures { result ≡ decided_of (decide_after help count (signs Out (take n s.now))) }
{
    if help {
        return decide_property(s, n, help, count);
    }
    let t = &s[..n];
    if terms::has_bare(t, b'=') {
        return decide_property(s, n, help, count);
    }
    decide_target(t)
}

// The term is the first n bytes of s.
fn decide_in(s: &[u8], n: usize, state: State) -> Result<Shown, u8>
    requires { n ≤ length s.now }
    ensures { result ≡ decided_of (decide_in state.phase state.verb state.seen state.count (signs Out (take n s.now))) }
{
    let t = &s[..n];
    let verb = state.verb;
    let count = state.count;
    let help = verb == 6;
    match state.phase {
        Phase::First => decide_verb(t),
        Phase::Options => {
            if terms::starts_bare(t, b'-') {
                return decide_option(t, verb, state.seen);
            }
            decide_after(s, n, help, count)
        }
        Phase::Waits(option) => decide_argument(s, n, option),
        Phase::Rest => {
            if terms::starts_bare(t, b'-') {
                return Err(11);
            }
            decide_property(s, n, help, count)
        }
    }
}

// ---- the place of a term that is refused, past its start: not of its form, it goes as far as its longest beginning that some text of that form begins with

// An option's argument.
fn past_argument(t: &[u8], option: u8) -> usize
    ensures { result ≡ past_start (argument_form (kind_of option)) t.now }
{
    match words::kind_of(option) {
        Kind::Mere => 0,
        Kind::Keep => reach::reach(t, Form::Keep),
        Kind::Level => reach::reach(t, Form::Level),
        Kind::Place => reach::reach(t, Form::Place),
        Kind::Entries => reach::reach(t, Form::Entries),
    }
}

// The argument of the option that waits.
fn past_waiting(t: &[u8], phase: Phase) -> usize
    ensures { result ≡ past_start (waiting_form phase) t.now }
{
    let Phase::Waits(option) = phase else {
        return 0;
    };
    past_argument(t, option)
}

// A property; with help, a topic.
fn past_property(t: &[u8], help: bool) -> usize
    ensures { result ≡ reach_of (property_form help) t.now }
{
    reach::reach(t, if help { Form::Topic } else { Form::Property })
}

fn past_start(t: &[u8], phase: Phase, verb: u8, number: u8) -> usize
    ensures { result ≡ past_start (form_asked phase verb number) t.now }
{
    match number {
        10 => past_waiting(t, phase),
        12 => reach::reach(t, Form::Target),
        13 => past_property(t, verb == 6),
        _ => 0,
    }
}

// ---- one step

fn marked(mut seen: [bool; 13], n: u8) -> [bool; 13]
    ensures { result ≡ set seen n true }
{
    let i = usize::from(n);
    if i < seen.len() {
        seen[i] = true;
    }
    seen
}

fn phase_after(n: u8) -> Phase
    ensures { result ≡ phase_after n (kind_of n) }
{
    match words::kind_of(n) {
        Kind::Mere => Phase::Options,
        Kind::Keep | Kind::Level | Kind::Place | Kind::Entries => Phase::Waits(n),
    }
}

// The state after a part.
fn after(s: State, i: Shown) -> State
    requires { counted i ≡ 1 → s.count < 32 }
    ensures { result ≡ next_shown s i }
{
    match i {
        Shown::Verb(verb) => State {
            phase: Phase::Options,
            verb,
            ..s
        },
        Shown::Option(n) => State {
            phase: phase_after(n),
            seen: marked(s.seen, n),
            ..s
        },
        Shown::Argument(_) => State {
            phase: Phase::Options,
            ..s
        },
        Shown::Target => State {
            phase: Phase::Rest,
            ..s
        },
        Shown::Property { .. } => State {
            phase: Phase::Rest,
            count: s.count + 1,
            ..s
        },
    }
}

// What the end of a line of n bytes gives: an option that still waits for its argument is refused there.
fn offer_end(phase: Phase, n: usize) -> Result<Option<Offered>, Refusal>
    ensures { result ≡ offer_end n phase }
{
    match phase {
        Phase::Waits(_) => Err(Refusal {
            number: 9,
            place: n,
        }),
        Phase::First | Phase::Options | Phase::Rest => Ok(None),
    }
}

impl Cursor {
    // Before a line's first term.
    pub fn begin() -> Cursor
        ensures { result ≡ first_cursor }
    {
        Cursor {
            at: 0,
            state: State {
                phase: Phase::First,
                verb: 0,
                seen: [false; 13],
                count: 0,
            },
        }
    }

    // What the next term of a line gives: a part, none at the line's end, or the line's refusal.
    fn offer(self, line: &[u8]) -> Result<Option<Offered>, Refusal>
        ensures { result ≡ offer_of line.now self.at self.state }
    {
        let state = self.state;
        let Some(term) = terms::term_at(line, self.at) else {
            return offer_end(state.phase, line.len());
        };
        match decide_in(&line[term.at..], term.len, state) {
            Ok(item) => Ok(Some(Offered { item, term })),
            Err(number) => {
                let end = term.at + term.len;
                let past = past_start(&line[term.at..end], state.phase, state.verb, number);
                Err(Refusal {
                    number,
                    place: term.at + past,
                })
            }
        }
    }

    // The same, and moves past a part; after a refusal, and at the line's end, the cursor is as it was.
    pub fn next(&mut self, line: &[u8]) -> Result<Option<Offered>, Refusal>
        ensures { step result self.new ≡ step_of line.now self.old }
    {
        let offer = self.offer(line)?;
        if let Some(part) = offer {
            self.state = after(self.state, part.item);
            self.at = part.term.at + part.term.len;
        }
        Ok(offer)
    }
}

// ---- records

// A part of the line by its position and length, 2 bytes each, high first.
fn part_bytes(s: Span) -> [u8; 4]
    requires { (s.at < 65536) × (s.len < 65536) }
    ensures { result ≡ field_bytes (part s) }
{
    let [at, at_low] = text::high_low(s.at as u16);
    let [len, len_low] = text::high_low(s.len as u16);
    [at, at_low, len, len_low]
}

// Each writes a record at a place of the room, which `verdict` has past the room's end, and tells how many bytes the record has.

// An option, or its argument.
fn put_option(out: &mut [u8], at: usize, number: u8, argument: Span) -> usize
    requires { (argument.at < 65536) × (argument.len < 65536) }
    ensures { (result ≡ length (record_of (Shown.Argument number) argument.at argument.len)) × (out.new ≡ sets out.old at (record_of (Shown.Argument number) argument.at argument.len)) }
{
    let [a, b, c, d] = part_bytes(argument);
    text::copy(out, at, &[2, number, a, b, c, d]);
    words::record_len(2)
}

// An option that takes no argument, which would stand at e; another one's record is written at its argument.
fn put_mere(out: &mut [u8], at: usize, number: u8, e: usize) -> usize
    requires { e < 65536 }
    ensures { (result ≡ length (bytes_of (option_fields number (kind_of number) e))) × (out.new ≡ sets out.old at (bytes_of (option_fields number (kind_of number) e))) }
{
    match words::kind_of(number) {
        Kind::Mere => put_option(out, at, number, Span { at: e, len: 0 }),
        Kind::Keep | Kind::Level | Kind::Place | Kind::Entries => 0,
    }
}

// The value in what stands after a name: after its operator, which has as many bytes as its number says; an absent one is empty, at the end.
fn value_span(operator: u8, rest: Span) -> Span
    requires { (rest.at ≤ 2048) × (rest.len ≤ 1024) }
    ensures { result ≡ value_span operator rest.at rest.len }
{
    if operator == 0 {
        return Span {
            at: rest.at + rest.len,
            len: 0,
        };
    }
    let width = usize::from(operator);
    Span {
        at: rest.at + width,
        len: rest.len.saturating_sub(width),
    }
}

// A property, by its name's length and its operator.
fn put_property(out: &mut [u8], at: usize, m: usize, operator: u8, term: Span) -> usize
    requires { (term.at ≤ 1024) × (term.len ≤ 1024) × (m ≤ 64) }
    ensures { (result ≡ length (record_of (Shown.Property m operator) term.at term.len)) × (out.new ≡ sets out.old at (record_of (Shown.Property m operator) term.at term.len)) }
{
    let value = value_span(
        operator,
        Span {
            at: term.at + m,
            len: term.len.saturating_sub(m),
        },
    );
    let [a, b, c, d] = part_bytes(Span {
        at: term.at,
        len: m,
    });
    let [e, f, g, h] = part_bytes(value);
    text::copy(out, at, &[4, a, b, c, d, operator, e, f, g, h]);
    words::record_len(4)
}

// The record of a part that stands at a term.
fn put_record(out: &mut [u8], at: usize, item: Shown, term: Span) -> usize
    requires { (term.at ≤ 1024) × (term.len ≤ 1024) × (name_size item ≤ 64) }
    ensures { (result ≡ length (record_of item term.at term.len)) × (out.new ≡ sets out.old at (record_of item term.at term.len)) }
{
    match item {
        Shown::Verb(number) => {
            text::copy(out, at, &[1, number]);
            words::record_len(1)
        }
        Shown::Option(number) => put_mere(out, at, number, term.at + term.len),
        Shown::Argument(number) => put_option(out, at, number, term),
        Shown::Target => {
            let [a, b, c, d] = part_bytes(term);
            text::copy(out, at, &[3, a, b, c, d]);
            words::record_len(3)
        }
        Shown::Property { name, operator } => put_property(out, at, name, operator, term),
    }
}

// ---- a whole line; the line and the room stay two parameters, as `read` has them

fn is_blank(line: &[u8]) -> bool
    ensures { result ≡ is_nil (terms_of line.now) }
{
    terms::term_at(line, 0).is_none()
}

// The refusal of a line's terms, or how many bytes their records have; where they are not refused, the records stand at the room's start, as far as it goes.
fn put_records(line: &[u8], out: &mut [u8]) -> Result<usize, Refusal>
    requires { length line.now ≤ 1024 }
    ensures { (result ≡ total_from 0 (left line.now first_cursor)) × (verdict_in (left line.now first_cursor) ≡ Ok tt → out.new ≡ sets out.old 0 (records_in (left line.now first_cursor))) }
{
    let mut c = Cursor::begin();
    let mut w: usize = 0;
    while let Some(part) = c.next(line)? {
        w += put_record(out, w, part.item, part.term);
    }
    Ok(w)
}

// The same of a whole line: its refusal, or how many bytes its records have.
fn put_reading(line: &[u8], out: &mut [u8]) -> Result<usize, Refusal>
    ensures { (result ≡ needed_in (reading_of line.now)) × (verdict_in (reading_of line.now) ≡ Ok tt → out.new ≡ sets out.old 0 (bytes_in (reading_of line.now))) }
{
    terms::lexical(line)?;
    if is_blank(line) {
        text::put(out, 0, 6);
        return Ok(words::record_len(6));
    }
    put_records(line, out)
}

// A line's refusal, or that it has none.
pub fn verdict(line: &[u8]) -> Result<(), Refusal>
    ensures { result ≡ verdict_in (reading_of line.now) }
{
    put_reading(line, &mut [])?;
    Ok(())
}

// A line's records, written at the start of the room; tells how many bytes they have. A refusal writes nothing: the records are held, at most 399 bytes, until the
// whole line is read.
pub fn read(line: &[u8], out: &mut [u8]) -> Result<usize, Refusal>
    ensures { (result ≡ answer_in (length out.old) (reading_of line.now)) × (out.new ≡ room_in out.old (reading_of line.now)) }
{
    let mut held = [0u8; 399];
    let n = put_reading(line, &mut held)?;
    if out.len() < n {
        return Err(Refusal {
            number: 19,
            place: 0,
        });
    }
    text::copy(out, 0, &held[..n]);
    Ok(n)
}

fn is_target(item: Shown) -> bool
    ensures { result ≡ is_target item }
{
    matches!(item, Shown::Target)
}

// Where the target of a line that is not refused stands.
fn first_target(line: &[u8]) -> Span
    requires { verdict_in (left line.now first_cursor) ≡ Ok tt }
    ensures { result ≡ target_in (left line.now first_cursor) }
{
    let mut c = Cursor::begin();
    while let Ok(Some(part)) = c.next(line) {
        if is_target(part.item) {
            return part.term;
        }
    }
    Span { at: 0, len: 0 }
}

// Where the target stands: empty, at 0, where there is none or the line is refused.
pub fn target_span(line: &[u8]) -> Span
    ensures { result ≡ target_in (reading_of line.now) }
{
    match verdict(line) {
        Ok(()) => first_target(line),
        Err(_) => Span { at: 0, len: 0 },
    }
}

// The target's own part of the line.
pub fn target<'a>(line: &'a [u8]) -> &'a [u8]
    ensures { result.now ≡ target_part line.now }
{
    let s = target_span(line);
    &line[s.at..s.at + s.len]
}

// ---- records that a lister makes

// A refusal.
pub fn put_refusal(out: &mut [u8], number: u8, place: u16) -> Result<usize, Refusal>
    ensures { (result ≡ fitted (length out.old) (refusal_record number place)) × (out.new ≡ filled out.old (refusal_record number place)) }
{
    let size = words::record_len(5);
    if out.len() < size {
        return Err(Refusal {
            number: 19,
            place: 0,
        });
    }
    let [high, low] = text::high_low(place);
    text::copy(out, 0, &[5, number, high, low]);
    Ok(size)
}

// A cut.
pub fn put_cut(out: &mut [u8]) -> Result<usize, Refusal>
    ensures { (result ≡ fitted (length out.old) cut_record) × (out.new ≡ filled out.old cut_record) }
{
    let size = words::record_len(7);
    if out.len() < size {
        return Err(Refusal {
            number: 19,
            place: 0,
        });
    }
    text::put(out, 0, 7);
    Ok(size)
}
