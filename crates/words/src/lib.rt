// Verbs, options and kinds of record.
#![tactic(auto)]

ghost use Rattle.std.specs.Prelude.{◌≡◌, [], ◌∷◌, ◌≤◌, ◌<◌, cond, length, get_or};
ghost use Rattle.std.proofs.Math.Option.{none, some};
ghost use Rattle.std.proofs.lemmas.List.Edits.{sets};
ghost use Rattle.text.specs.Bytes.{same_bytes};
ghost use Rattle.words.specs.Words.{lower, lowered, names, verb_names, verb_of, verb_name, option_of, option_name, kind_of, all_name, session_name, body_of, record_len, reply_record_len};
ghost use Rattle.words.specs.Tables.{known};
ghost use Rattle.words.specs.Rows.{find_of, verb_row, option_row, row_name, row_names, candidate_of, row_number};
ghost use Rattle.words.specs.Pens.{Puts};

// The form of an option's argument; Mere: it takes none.
#[derive(Clone, Copy)]
pub enum Kind {
    Mere,
    Keep,
    Level,
    Place,
    Entries,
}

// The rows of the verbs, by number; 0 is no verb's. A row: how many bytes the name has, the name in 7. Rows of fixed width are the form that these tables were asked in (docs/DECISIONS.md).
const VERBS: [[u8; 8]; 14] = [
    *b"\0\0\0\0\0\0\0\0",
    *b"\x02cd\0\0\0\0\0",
    *b"\x06create\0",
    *b"\x06delete\0",
    *b"\x04dump\0\0\0",
    *b"\x04exit\0\0\0",
    *b"\x04help\0\0\0",
    *b"\x04load\0\0\0",
    *b"\x05reset\0\0",
    *b"\x03set\0\0\0\0",
    *b"\x04show\0\0\0",
    *b"\x05start\0\0",
    *b"\x04stop\0\0\0",
    *b"\x07version",
];

// The rows of the options, by number; 0 is no option's. A row: how many bytes the long name has, the name in 11, the short name or 0, three zeros. The form is that of the verbs' rows.
const OPTIONS: [[u8; 16]; 13] = [
    *b"\0\0\0\0\0\0\0\0\0\0\0\0\0\0\0\0",
    *b"\x03all\0\0\0\0\0\0\0\0a\0\0\0",
    *b"\x0bdestination\0\0\0\0",
    *b"\x07display\0\0\0\0d\0\0\0",
    *b"\x07examine\0\0\0\0x\0\0\0",
    *b"\x05force\0\0\0\0\0\0f\0\0\0",
    *b"\x04help\0\0\0\0\0\0\0h\0\0\0",
    *b"\x04keep\0\0\0\0\0\0\0k\0\0\0",
    *b"\x05level\0\0\0\0\0\0l\0\0\0",
    *b"\x06output\0\0\0\0\0o\0\0\0",
    *b"\x06source\0\0\0\0\0\0\0\0\0",
    *b"\x07version\0\0\0\0v\0\0\0",
    *b"\x04wait\0\0\0\0\0\0\0w\0\0\0",
];

// The form of each option's argument, by number.
const KINDS: [Kind; 13] = [
    Kind::Mere,
    Kind::Mere,
    Kind::Place, // destination
    Kind::Entries, // display
    Kind::Mere,
    Kind::Mere,
    Kind::Mere,
    Kind::Keep, // keep
    Kind::Level, // level
    Kind::Entries, // output
    Kind::Place, // source
    Kind::Mere,
    Kind::Mere,
];

// How many bytes a node's record has, its kind among them: of a tree, whose records are arrays, this is a constant.
pub const NODE_LEN: usize = 22;

// How long the body of a record is, by its kind; none for a kind that no record has.
const BODIES: [Option<u8>; 17] = [
    None,
    Some(1), // verb
    Some(5), // option
    Some(4), // target
    Some(9), // property
    Some(3), // refusal
    Some(0), // blank
    Some(0), // cut
    None,
    None,
    None,
    None,
    None,
    None,
    None,
    None,
    Some(NODE_LEN as u8 - 1), // node
];

// What stands in a table at a number, or the value that is given for a number that it does not have.
fn at_or<T: Copy>(table: &[T], n: u8, none: T) -> T
    ensures { result ≡ get_or table.now n none }
{
    table.get(usize::from(n)).copied().unwrap_or(none)
}

// The row of a verb; zeros where there is no such number.
fn verb_row(n: u8) -> [u8; 8]
    ensures { result ≡ verb_row n }
{
    at_or(&VERBS, n, [0; 8])
}

// The row of an option; zeros where there is no such number.
fn option_row(n: u8) -> [u8; 16]
    ensures { result ≡ option_row n }
{
    at_or(&OPTIONS, n, [0; 16])
}

// The number of the verb with this name.
pub fn verb(t: &[u8]) -> Option<u8>
    ensures { result ≡ known (verb_of t.now) }
{
    match t.len() {
        2 => only(t, b"cd", 1),
        3 => only(t, b"set", 9),
        4 => verb_of_four(t),
        5 => verb_of_five(t),
        6 => verb_of_six(t),
        7 => only(t, b"version", 13),
        _ => None,
    }
}

// A letter A to Z in lower case; every other byte is itself.
#[tactic(auto, unfolding(crate::specs::Words::lower))]
pub fn lower(b: u8) -> u8
    ensures { result ≡ lower b }
{
    b.to_ascii_lowercase()
}

// Whether a text is this name, its letters in either case.
fn named(t: &[u8], name: &[u8]) -> bool
    ensures { result ≡ same_bytes (lowered t.now) name.now }
{
    t.len() == name.len() && t.iter().zip(name).all(|(b, c)| lower(*b) == *c)
}

// A number, if the text is its name.
fn only(t: &[u8], name: &[u8], number: u8) -> Option<u8>
    ensures { result ≡ known (cond (same_bytes (lowered t.now) name.now) (some number) none) }
{
    if named(t, name) { Some(number) } else { None }
}

// The verbs of four bytes, of five, of six.
fn verb_of_four(t: &[u8]) -> Option<u8>
    ensures { result ≡ known (find_of 4 1 verb_names t.now) }
{
    if named(t, b"dump") {
        return Some(4);
    }
    if named(t, b"exit") {
        return Some(5);
    }
    if named(t, b"help") {
        return Some(6);
    }
    if named(t, b"load") {
        return Some(7);
    }
    if named(t, b"show") {
        return Some(10);
    }
    only(t, b"stop", 12)
}

fn verb_of_five(t: &[u8]) -> Option<u8>
    ensures { result ≡ known (find_of 5 1 verb_names t.now) }
{
    if named(t, b"reset") {
        return Some(8);
    }
    only(t, b"start", 11)
}

fn verb_of_six(t: &[u8]) -> Option<u8>
    ensures { result ≡ known (find_of 6 1 verb_names t.now) }
{
    if named(t, b"create") {
        return Some(2);
    }
    only(t, b"delete", 3)
}

// Whether a text is the target `SESSION`.
#[tactic(auto, unfolding(crate::specs::Words::session_name, text::specs::Bytes::bytes))]
pub fn is_session(t: &[u8]) -> bool
    ensures { result ≡ same_bytes t.now session_name }
{
    text::same(t, b"SESSION")
}

// Whether a text is a level's `all`, its letters in either case.
#[tactic(auto, unfolding(crate::specs::Words::names, crate::specs::Words::all_name, text::specs::Bytes::bytes))]
pub fn is_all(t: &[u8]) -> bool
    ensures { result ≡ names all_name t.now }
{
    named(t, b"all")
}

// The number of the option with this name, long or short: the text after the `-`.
pub fn option(t: &[u8]) -> Option<u8>
    ensures { result ≡ known (option_of t.now) }
{
    let n = candidate(lower(*t.first()?), t.len())?;
    if row_names(option_row(n), t) {
        return Some(n);
    }
    None
}

// The one option that a text can name, by its first byte in lower case and its length. Of the two that begin with `d`, destination has 11 bytes.
#[tactic(auto, unfolding(crate::specs::Rows::candidate_of))]
fn candidate(first: u8, len: usize) -> Option<u8>
    ensures { result ≡ row_number (candidate_of first len) }
{
    let n = match first {
        b'a' => 1,
        b'd' if len == 11 => 2,
        b'd' => 3,
        b'e' | b'x' => 4,
        b'f' => 5,
        b'h' => 6,
        b'k' => 7,
        b'l' => 8,
        b'o' => 9,
        b's' => 10,
        b'v' => 11,
        b'w' => 12,
        _ => return None,
    };
    Some(n)
}

// Whether a row of the options names a text.
#[tactic(auto, using(crate::proofs::RowLaws::row_short_lem, crate::proofs::RowLaws::row_no_short, crate::proofs::RowLaws::row_long))]
fn row_names(row: [u8; 16], t: &[u8]) -> bool
    requires { (0 < get_or row 0 0) × (get_or row 0 0 ≤ 11) }
    ensures { result ≡ row_names row t.now }
{
    if let [given] = t {
        let short = row[12];
        return short != 0 && lower(*given) == short;
    }
    let n = usize::from(row[0]);
    named(t, &row[1..=n])
}

// The form of an option's argument, by the option's number.
#[tactic(auto, unfolding(crate::specs::Words::kind_of, crate::specs::Words::kinds))]
pub fn kind_of(n: u8) -> Kind
    ensures { result ≡ kind_of n }
{
    at_or(&KINDS, n, Kind::Mere)
}

// The name of a verb at a place of the room; tells how many bytes it has.
pub fn put_verb_name(out: &mut [u8], at: usize, n: u8) -> usize
    ensures { (result ≡ length (verb_name n)) × (out.new ≡ sets out.old at (verb_name n)) }
{
    put_row(out, at, &verb_row(n))
}

// The long name of an option at a place of the room; tells how many bytes it has.
pub fn put_option_name(out: &mut [u8], at: usize, n: u8) -> usize
    ensures { (result ≡ length (option_name n)) × (out.new ≡ sets out.old at (option_name n)) }
{
    put_row(out, at, &option_row(n))
}

// A row's name at a place of the room.
fn put_row(out: &mut [u8], at: usize, row: &[u8]) -> usize
    requires { get_or row.now 0 0 < length row.now }
    ensures { (result ≡ length (row_name row.now)) × (out.new ≡ sets out.old at (row_name row.now)) }
{
    let n = usize::from(row[0]);
    text::copy(out, at, &row[1..=n]);
    n
}

// How long the body of a record is, by its kind.
#[tactic(auto, using(crate::proofs::RowLaws::body_listed))]
pub fn body_len(kind: u8) -> Option<u8>
    ensures { result ≡ known (body_of kind) }
{
    at_or(&BODIES, kind, None)
}

// How long a whole record is, by its kind; 0 where there is no such kind.
pub fn record_len(kind: u8) -> usize
    ensures { result ≡ record_len kind }
{
    match body_len(kind) {
        Some(n) => 1 + usize::from(n),
        None => 0,
    }
}

// How long a whole record of a reply is, by its kind; 0 where a reply has no such kind.
pub fn reply_record_len(kind: u8) -> usize
    ensures { result ≡ reply_record_len kind }
{
    match kind {
        64 => 9, // item
        65 => 5, // group
        66 | 67 => 1, // endgroup, endoutput
        _ => 0,
    }
}

// Lent room, and the place where the next text goes. What would stand past the room's end is not written, but counted.
#[derive(Drop)]
pub struct Pen<'a> {
    pub out: &'a mut [u8],
    // Stops at the last number, past the end of any room: so no writer asks how far the text has come.
    pub at: usize,
}

// Inlined: a pen that is passed to a call has its place in memory.
impl<'a> Pen<'a> {
    // At the start of a room.
    #[inline]
    pub fn new(out: &'a mut [u8]) -> Pen<'a>
        ensures same_room { result.out.ghost_name ≡ out.entry.ghost_name }
        ensures starts { (result.at ≡ 0) × (result.out.now ≡ out.old) }
    {
        Pen { out, at: 0 }
    }

    #[inline]
    pub fn byte(&mut self, b: u8)
        ensures { Puts self.old (b ∷ []) self.new }
    {
        text::put(self.out, self.at, b);
        self.at = self.at.saturating_add(1);
    }

    // The bytes of a text as they are.
    #[inline]
    pub fn text(&mut self, t: &[u8])
        ensures { Puts self.old t.now self.new }
    {
        text::copy(self.out, self.at, t);
        self.at = self.at.saturating_add(t.len());
    }

    #[inline]
    pub fn verb_name(&mut self, n: u8)
        ensures { Puts self.old (verb_name n) self.new }
    {
        let len = put_verb_name(self.out, self.at, n);
        self.at = self.at.saturating_add(len);
    }

    // An option's long name.
    #[inline]
    pub fn option_name(&mut self, n: u8)
        ensures { Puts self.old (option_name n) self.new }
    {
        let len = put_option_name(self.out, self.at, n);
        self.at = self.at.saturating_add(len);
    }
}
