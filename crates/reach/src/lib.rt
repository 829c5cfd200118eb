// How far a text goes towards a form: how many bytes its longest beginning has that is also a beginning of some text of that form. One pass, byte by byte, by one of
// three machines: for numbers, for targets, and for the forms that have names and values.
#![tactic(auto)]

ghost use Rattle.std.specs.Prelude.{◌≡◌, ℕ, Bool, true, ◌&&◌, ◌-◌, ◌*◌, ◌+◌};
ghost use Rattle.text.specs.Bytes.{is_digit};
ghost use Rattle.terms.specs.declared.Mode.TheVariants.{Out};
ghost use Rattle.reach.specs.Machine.{reach_by};
ghost use Rattle.reach.specs.Numbers.{digit_more, is_all_letter, all_step, first_step, tally_step, is_off_tally};
ghost use Rattle.reach.specs.Roads.{start_step, part_step, tag_end, tag_step, number_step, road_step, is_off_road};
ghost use Rattle.reach.specs.Stages.{is_alive, is_name_byte, name_step, comma_step, said_step, value_step, free_step, text_on, in_text, items_on, items_next, in_items, stage_and_mode, is_off_at, stage_reach};
ghost use Rattle.reach.specs.Reach.{reach_of};

use forms::{At, at_step, is_bare, is_separator, is_whole};
use terms::{Mode, step};
use text::{is_digit, is_letter, is_word};
use words::lower;

// The forms of a term's text: the arguments of keep, level, source and destination, display and output; a target; a property; a help topic.
#[derive(Clone, Copy)]
pub enum Form {
    Keep,
    Level,
    Place,
    Entries,
    Target,
    Property,
    Topic,
}

// ---- a machine, and how far it goes

// A machine reads a text byte by byte, from state to state, until it is off: no text of its form goes on so.
trait Machine {
    type State: Copy;

    ghost next: { Self → Self.State → ℕ → Self.State };

    ghost off: { Self.State → Bool };

    fn step(&self, q: Self::State, b: u8) -> Self::State
        ensures { result ≡ next self.now q b };

    fn is_off(q: Self::State) -> bool
        ensures { result ≡ off q };
}

// How many bytes of a text a machine takes, from a state on, before it is off.
#[tactic(auto, using(crate::proofs::MachineLaws::walk_pass))]
fn reach_from<M: Machine>(machine: &M, first: M::State, t: &[u8]) -> usize
    ensures { result ≡ reach_by (M.next machine.now) M.off first t.now }
{
    let mut q = first;
    for (i, b) in t.iter().enumerate() {
        q = machine.step(q, *b);
        if M::is_off(q) {
            return i;
        }
    }
    t.len()
}

// ---- numbers, and `all`

// Where a pass over a number stands: before it, after a leading zero, after digits of this value; after this many letters of `all`; past what can stay.
// `Off` is a state here, in Road and in Stage, and no Option around them: the machines of specs/ step from it as from any other.
#[derive(Clone, Copy)]
pub enum Tally {
    First,
    Zero,
    Number(u32),
    All(usize),
    Off,
}

// The value of some digits and one more.
fn more(v: u32, b: u8) -> u64
    requires { is_digit b ≡ true }
    ensures { result ≡ v * 10 + (b - 48) }
{
    u64::from(v) * 10 + u64::from(b - b'0')
}

// The same where the byte is a digit and the value at most `most`.
fn digit_more(v: u32, b: u8, most: u32) -> Option<u64>
    ensures { result ≡ digit_more most v b }
{
    if !is_digit(b) {
        return None;
    }
    let w = more(v, b);
    let limit = u64::from(most);
    if limit < w {
        return None;
    }
    Some(w)
}

// Is it the letter of `all` after the first n, in either case?
#[tactic(auto, unfolding(crate::specs::Numbers::is_all_letter, words::specs::Words::all_name, text::specs::Bytes::bytes))]
fn is_all_letter(n: usize, b: u8) -> bool
    ensures { result ≡ is_all_letter n b }
{
    n < 3 && lower(b) == b"all"[n]
}

#[tactic(auto, unfolding(crate::specs::Numbers::all_step, crate::specs::Numbers::is_all_letter))]
fn all_step(n: usize, b: u8) -> Tally
    ensures { result ≡ all_step n b }
{
    if is_all_letter(n, b) {
        return Tally::All(n + 1);
    }
    Tally::Off
}

// The first byte; a level may be `all`.
fn first_step(level: bool, b: u8) -> Tally
    ensures { result ≡ first_step level b }
{
    if b == b'0' {
        return Tally::Zero;
    }
    match digit_more(0, b, 4294967295) {
        Some(w) => Tally::Number(w as u32),
        None => {
            if level {
                return all_step(0, b);
            }
            Tally::Off
        }
    }
}

fn tally_step(level: bool, q: Tally, b: u8) -> Tally
    ensures { result ≡ tally_step level q b }
{
    match q {
        Tally::First => first_step(level, b),
        Tally::Zero => Tally::Off,
        Tally::Number(v) => {
            match digit_more(v, b, 4294967295) {
                Some(w) => Tally::Number(w as u32),
                None => Tally::Off,
            }
        }
        Tally::All(n) => all_step(n, b),
        Tally::Off => Tally::Off,
    }
}

// The machine for the arguments of keep and level; a level may be `all`.
#[derive(Clone, Copy)]
struct TallyMachine {
    level: bool,
}

impl Machine for TallyMachine {
    type State = Tally;

    ghost next = { λ machine. tally_step machine.level };

    ghost off = { is_off_tally };

    fn step(&self, q: Tally, b: u8) -> Tally {
        tally_step(self.level, q, b)
    }

    fn is_off(q: Tally) -> bool {
        matches!(q, Tally::Off)
    }
}

// ---- targets

// Where a pass over a target stands, after how many segments: before a leading separator; before a segment; after `.`, after `..`; after letters of a tag; after a
// tag and digits of this value; after a tag and `*`; past what can stay. `SESSION` goes as far as a tag of its letters does.
#[derive(Clone, Copy)]
pub enum Road {
    Lead,
    Start(usize),
    Dot(usize),
    Dots(usize),
    Tag { segment: usize, letters: usize },
    Number { segment: usize, value: u32 },
    Star,
    Off,
}

// The first byte of a segment.
#[tactic(auto, unfolding(crate::specs::Roads::start_step))]
fn start_step(k: usize, b: u8) -> Road
    ensures { result ≡ start_step k b }
{
    if b == b'.' {
        return Road::Dot(k);
    }
    if is_letter(b) {
        return Road::Tag {
            segment: k,
            letters: 1,
        };
    }
    Road::Off
}

// After a whole segment: a separator, where another segment may follow.
#[tactic(auto, unfolding(crate::specs::Roads::part_step))]
fn part_step(k: usize, b: u8) -> Road
    ensures { result ≡ part_step k b }
{
    if is_separator(b) && k < 15 {
        return Road::Start(k + 1);
    }
    Road::Off
}

// After a tag: `*`, or the first digit of its number.
fn tag_end(k: usize, b: u8) -> Road
    ensures { result ≡ tag_end k b }
{
    if b == b'*' {
        return Road::Star;
    }
    if b == b'0' {
        return Road::Off;
    }
    match digit_more(0, b, 65535) {
        Some(w) => Road::Number {
            segment: k,
            value: w as u32,
        },
        None => Road::Off,
    }
}

#[tactic(auto, unfolding(crate::specs::Roads::tag_step))]
fn tag_step(k: usize, n: usize, b: u8) -> Road
    ensures { result ≡ tag_step k n b }
{
    if is_letter(b) {
        if n < 16 {
            return Road::Tag {
                segment: k,
                letters: n + 1,
            };
        }
        return Road::Off;
    }
    tag_end(k, b)
}

fn number_step(k: usize, v: u32, b: u8) -> Road
    ensures { result ≡ number_step k v b }
{
    match digit_more(v, b, 65535) {
        Some(w) => Road::Number {
            segment: k,
            value: w as u32,
        },
        None => part_step(k, b),
    }
}

// The machine for targets.
#[derive(Clone, Copy)]
struct RoadMachine;

impl Machine for RoadMachine {
    type State = Road;

    ghost next = { λ machine. road_step };

    ghost off = { is_off_road };

    fn step(&self, q: Road, b: u8) -> Road {
        match q {
            Road::Lead => {
                if is_separator(b) {
                    return Road::Start(0);
                }
                start_step(0, b)
            }
            Road::Start(k) => start_step(k, b),
            Road::Dot(k) => {
                if b == b'.' {
                    return Road::Dots(k);
                }
                part_step(k, b)
            }
            Road::Dots(k) => part_step(k, b),
            Road::Tag { segment, letters } => tag_step(segment, letters, b),
            Road::Number { segment, value } => number_step(segment, value, b),
            Road::Star | Road::Off => Road::Off,
        }
    }

    fn is_off(q: Road) -> bool {
        matches!(q, Road::Off)
    }
}

// ---- places, names, and what follows a name

// Where a pass over such a text stands: in one without quotes; after this many bytes of a name; after the `=` of a property, where another may follow; before a value;
// in a quoted string or a plain text; in a list, after this many items; after its closing parenthesis; past what can stay.
#[derive(Clone, Copy)]
pub enum Stage {
    Free,
    Name(usize),
    Said,
    Value,
    Text(At),
    Items { at: At, before: usize },
    Closed,
    Off,
}

// Can some text go on from here? After a closing quote no GRAVE can stay.
fn is_alive(q: At, m: Mode) -> bool
    ensures { result ≡ is_alive q m }
{
    match q {
        At::Start | At::Plain | At::Inside => true,
        At::Ended => matches!(m, Mode::Out),
        At::Dead => false,
    }
}

#[tactic(auto, unfolding(crate::specs::Stages::free_step))]
fn free_step(m: Mode, b: u8) -> Stage
    ensures { result ≡ free_step m b }
{
    if is_bare(m, b, b'"') {
        return Stage::Off;
    }
    Stage::Free
}

// A bare comma, and what may follow it.
#[tactic(auto, unfolding(crate::specs::Stages::comma_step))]
fn comma_step(b: u8, comma: Stage) -> Stage
    ensures { result ≡ comma_step comma b }
{
    if b == b',' {
        return comma;
    }
    Stage::Off
}

// May a name of k bytes go on with this one?
#[tactic(auto, unfolding(crate::specs::Stages::is_name_byte))]
fn is_name_byte(k: usize, b: u8) -> bool
    ensures { result ≡ is_name_byte k b }
{
    if k == 0 {
        return is_letter(b);
    }
    k < 64 && is_word(b)
}

#[tactic(auto, unfolding(crate::specs::Stages::name_step, crate::specs::Stages::is_name_byte))]
fn name_step(k: usize, b: u8, equal: Stage, comma: Stage) -> Stage
    ensures { result ≡ name_step equal comma k b }
{
    if is_name_byte(k, b) {
        return Stage::Name(k + 1);
    }
    if k == 0 {
        return Stage::Off;
    }
    if b == b'=' {
        return equal;
    }
    comma_step(b, comma)
}

// This and `items_on` differ in the stage alone: over one function that gives an `Option<At>`, a property's value took 74 instructions a byte in place of 51.
#[tactic(auto, unfolding(crate::specs::Stages::text_on))]
fn text_on(q: At, m: Mode, b: u8) -> Stage
    ensures { result ≡ text_on q m b }
{
    let p = at_step(q, m, b);
    if is_alive(p, step(m, b)) {
        return Stage::Text(p);
    }
    Stage::Off
}

// A list where it begins with `(`, otherwise quoted or plain.
#[tactic(auto, unfolding(crate::specs::Stages::value_step))]
fn value_step(b: u8) -> Stage
    ensures { result ≡ value_step b }
{
    if b == b'(' {
        return Stage::Items {
            at: At::Start,
            before: 0,
        };
    }
    text_on(At::Start, Mode::Out, b)
}

#[tactic(auto, unfolding(crate::specs::Stages::said_step))]
fn said_step(b: u8) -> Stage
    ensures { result ≡ said_step b }
{
    if b == b'=' {
        return Stage::Value;
    }
    value_step(b)
}

#[tactic(auto, unfolding(crate::specs::Stages::in_text))]
fn in_text(q: At, m: Mode, b: u8, comma: Stage) -> Stage
    ensures { result ≡ in_text comma q m b }
{
    if is_bare(m, b, b',') {
        if is_whole(q) {
            return comma;
        }
        return Stage::Off;
    }
    text_on(q, m, b)
}

// A comma in a list, after k items and the one that it ends: another item may follow up to the sixteenth.
#[tactic(auto, unfolding(crate::specs::Stages::items_next))]
fn items_next(q: At, k: usize) -> Stage
    ensures { result ≡ items_next q k }
{
    if is_whole(q) && k < 15 {
        return Stage::Items {
            at: At::Start,
            before: k + 1,
        };
    }
    Stage::Off
}

#[tactic(auto, unfolding(crate::specs::Stages::items_on))]
fn items_on(q: At, k: usize, m: Mode, b: u8) -> Stage
    ensures { result ≡ items_on q k m b }
{
    let p = at_step(q, m, b);
    if is_alive(p, step(m, b)) {
        return Stage::Items { at: p, before: k };
    }
    Stage::Off
}

#[tactic(auto, unfolding(crate::specs::Stages::in_items))]
fn in_items(q: At, k: usize, m: Mode, b: u8) -> Stage
    ensures { result ≡ in_items q k m b }
{
    if is_bare(m, b, b')') {
        if is_whole(q) {
            return Stage::Closed;
        }
        return Stage::Off;
    }
    if is_bare(m, b, b',') {
        return items_next(q, k);
    }
    items_on(q, k, m, b)
}

// The machine for the other forms: `equal` and `comma` say what follows a name's `=` and a bare comma. It carries the mode of what was read.
#[derive(Clone, Copy)]
struct StageMachine {
    equal: Stage,
    comma: Stage,
}

impl Machine for StageMachine {
    type State = (Stage, Mode);

    ghost next = { λ machine. stage_and_mode machine.equal machine.comma };

    ghost off = { is_off_at };

    fn step(&self, q: (Stage, Mode), b: u8) -> (Stage, Mode) {
        let (stage, m) = q;
        let next = match stage {
            Stage::Free => free_step(m, b),
            Stage::Name(k) => name_step(k, b, self.equal, self.comma),
            Stage::Said => said_step(b),
            Stage::Value => value_step(b),
            Stage::Text(at) => in_text(at, m, b, self.comma),
            Stage::Items { at, before } => in_items(at, before, m, b),
            Stage::Closed => comma_step(b, self.comma),
            Stage::Off => Stage::Off,
        };
        (next, step(m, b))
    }

    fn is_off(q: (Stage, Mode)) -> bool {
        matches!(q.0, Stage::Off)
    }
}

// How far such a text goes from a stage on.
fn reach_stage(t: &[u8], first: Stage, equal: Stage, comma: Stage) -> usize
    ensures { result ≡ stage_reach equal comma first Out t.now }
{
    reach_from(&StageMachine { equal, comma }, (first, Mode::Out), t)
}

// ---- every form

// How many bytes the longest beginning of a text has that is also a beginning of some text of a form.
#[tactic(auto, unfolding(crate::specs::Reach::reach_of))]
pub fn reach(t: &[u8], form: Form) -> usize
    ensures { result ≡ reach_of form t.now }
{
    match form {
        Form::Keep => reach_from(&TallyMachine { level: false }, Tally::First, t),
        Form::Level => reach_from(&TallyMachine { level: true }, Tally::First, t),
        Form::Place => reach_stage(t, Stage::Free, Stage::Off, Stage::Off),
        Form::Entries => reach_stage(t, Stage::Name(0), Stage::Value, Stage::Name(0)),
        Form::Target => reach_from(&RoadMachine, Road::Lead, t),
        Form::Property => reach_stage(t, Stage::Name(0), Stage::Said, Stage::Off),
        Form::Topic => reach_stage(t, Stage::Name(0), Stage::Off, Stage::Off),
    }
}
