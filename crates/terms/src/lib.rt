// Terms and escapes.
#![tactic(auto)]

ghost use Rattle.std.specs.Prelude.{◌≡◌, false, cond, not, [], ◌∷◌, ◌+◌, ◌<◌, ◌≤◌, length, drop, set, eqb};
ghost use Rattle.std.proofs.lemmas.List.Edits.{sets};
ghost use Rattle.text.specs.Bytes.{one_of};
ghost use Rattle.text.specs.Lists.{all_of, any_of, run_len, parts};
ghost use Rattle.text.specs.Room.{fitted, filled};
ghost use Rattle.terms.specs.Signs.{twelve, two, after, gives, at_end, stands, meant, is_bare, has_bare};
ghost use Rattle.terms.specs.Marks.{is_mark, has_mark, starts_bare};
ghost use Rattle.terms.specs.Rows.{open_flaw, many_flaw, lexical_of};
ghost use Rattle.terms.specs.Scan.{is_space, gap_byte, term_len, start_at, term_at, ordinary};

use text::Refusal;

// Where a scan stands: outside quotes or inside, and there directly after a GRAVE that nothing has escaped.
#[derive(Clone, Copy)]
pub enum Mode {
    Out,
    OutGrave,
    In,
    InGrave,
}

// A part of a line.
#[derive(Clone, Copy)]
pub struct Span {
    pub at: usize,
    pub len: usize,
}

// One of the twelve bytes that GRAVE escapes outside quotes.
#[tactic(auto, unfolding(text::specs::Bytes::one_of, text::specs::Bytes::bytes, crate::specs::Signs::twelve))]
pub fn is_twelve(b: u8) -> bool
    ensures { result ≡ one_of twelve b }
{
    matches!(
        b,
        b' ' | b'`' | b'"' | b',' | b'=' | b'-' | b'/' | b'\\' | b'.' | b'(' | b')' | b'*'
    )
}

// One of the two bytes that GRAVE escapes inside quotes.
#[tactic(auto, unfolding(text::specs::Bytes::one_of, text::specs::Bytes::bytes, crate::specs::Signs::two))]
pub fn is_two(b: u8) -> bool
    ensures { result ≡ one_of two b }
{
    matches!(b, b'`' | b'"')
}

// Where a scan stands after a byte, by what that byte leads to from outside quotes and from inside, where no GRAVE takes it.
#[tactic(auto, unfolding(crate::specs::Signs::after))]
fn step_by(m: Mode, b: u8, out: Mode, inside: Mode) -> Mode
    requires { (out ≡ after Mode.Out b) × (inside ≡ after Mode.In b) }
    ensures { result ≡ after m b }
{
    match m {
        Mode::Out => out,
        Mode::OutGrave => Mode::Out,
        Mode::In => inside,
        Mode::InGrave => Mode::In,
    }
}

// Where a scan stands after one more byte: the byte is looked at first, since it is easier to foresee than the mode.
#[tactic(auto, unfolding(crate::specs::Signs::after))]
pub fn step(m: Mode, b: u8) -> Mode
    ensures { result ≡ after m b }
{
    match b {
        b'`' => step_by(m, b, Mode::OutGrave, Mode::InGrave),
        b'"' => step_by(m, b, Mode::In, Mode::Out),
        _ => step_by(m, b, Mode::Out, Mode::In),
    }
}

// Whether a byte parts terms.
fn is_gap(m: Mode, b: u8) -> bool
    ensures { result ≡ gap_byte m b }
{
    matches!(m, Mode::Out) && b == b' '
}

// Where the spaces that begin at a place end.
fn gap_end(line: &[u8], at: usize) -> usize
    ensures { result ≡ start_at line.now at }
{
    let Some(rest) = line.get(at..) else {
        return at;
    };
    at + rest.iter().position(|b| *b != b' ').unwrap_or(rest.len())
}

// Whether a byte is none of GRAVE, `"` and the one given: outside quotes it changes no mode.
#[tactic(auto, unfolding(crate::specs::Scan::ordinary))]
fn is_ordinary(b: u8, stop: u8) -> bool
    ensures { result ≡ ordinary stop b }
{
    b != b'`' && b != b'"' && b != stop
}

// How many such bytes a text begins with: most of a line is passed here, where no mode is kept.
fn ordinary_len(s: &[u8], stop: u8) -> usize
    ensures run { result ≡ run_len (ordinary stop) s.now }
    ensures within { result ≤ length s.now }
{
    s.iter()
        .position(|b| !is_ordinary(*b, stop))
        .unwrap_or(s.len())
}

// Where the term that begins at a place ends.
#[tactic(auto, using(crate::proofs::ScanLaws::term_past))]
fn term_end(line: &[u8], at: usize) -> usize
    ensures { result ≡ at + term_len Mode.Out (drop at line.now) }
{
    let Some(rest) = line.get(at..) else {
        return at;
    };
    let n = ordinary_len(rest, b' ');
    at + n + first_len(&rest[n..])
}

// How long the term is that a text begins with, byte by byte with its mode.
#[tactic(auto, using(crate::proofs::ScanLaws::term_ends, crate::proofs::ScanLaws::term_on, crate::proofs::ScanLaws::term_past))]
fn first_len(s: &[u8]) -> usize
    ensures term { result ≡ term_len Mode.Out s.now }
    ensures within { result ≤ length s.now }
{
    let mut m = Mode::Out;
    for (i, b) in s.iter().enumerate() {
        if is_gap(m, *b) {
            return i;
        }
        m = step(m, *b);
    }
    s.len()
}

// The term at or after a place, scanned as at a line's start.
// Inlined: as a call it took 40 instructions more for each term of a line.
#[inline(always)]
pub fn term_at(line: &[u8], at: usize) -> Option<Span>
    ensures { result ≡ term_at line.now at }
{
    let at = gap_end(line, at);
    let len = term_end(line, at) - at;
    if len == 0 {
        return None;
    }
    Some(Span { at, len })
}

// Whether a byte is this one and is not taken by the GRAVE before it.
fn is_free(taken: bool, b: u8, n: u8) -> bool
    ensures { result ≡ cond taken false (eqb b n) }
{
    !taken && b == n
}

// Whether quotes are open after a byte that is a quote mark or not.
fn turned(inside: bool, mark: bool) -> bool
    ensures { result ≡ cond mark (not inside) inside }
{
    inside != mark
}

// The place of the quote that was opened last: i if a quote mark there opens one.
fn opened(inside: bool, mark: bool, i: usize, q: usize) -> usize
    ensures { result ≡ cond mark (cond inside q i) q }
{
    if mark && !inside { i } else { q }
}

// Whether no byte of a block is a GRAVE or a `"`. All are looked at, so that many are compared at once.
fn all_ordinary(s: &[u8; 16]) -> bool
    ensures { result ≡ all_of (ordinary 34) s.now }
{
    s.iter().fold(true, |all, b| all & is_ordinary(*b, b'"'))
}

// Where the blocks of sixteen such bytes that a line begins with end.
fn ordinary_blocks(line: &[u8]) -> usize
    ensures { result + run_len (ordinary 34) (drop result line.now) ≡ run_len (ordinary 34) line.now }
{
    let (blocks, _) = line.as_chunks::<16>();
    16 * blocks
        .iter()
        .position(|s| !all_ordinary(s))
        .unwrap_or(blocks.len())
}

// Rows 3 and 4: whether the line ends in a GRAVE that escapes nothing, or in a quote. The mode is kept as two tests, inside quotes and taken by a GRAVE, so that no byte is branched on.
fn open_flaw(line: &[u8]) -> Result<(), Refusal>
    ensures { result ≡ open_flaw line.now }
{
    let mut inside = false;
    let mut taken = false;
    let mut q: usize = 0;
    for i in ordinary_blocks(line)..line.len() {
        let b = line[i];
        let mark = is_free(taken, b, b'"');
        taken = is_free(taken, b, b'`');
        q = opened(inside, mark, i, q);
        inside = turned(inside, mark);
    }
    if taken {
        return Err(Refusal {
            number: 3,
            place: line.len() - 1,
        });
    }
    if inside {
        return Err(Refusal {
            number: 4,
            place: q,
        });
    }
    Ok(())
}

// How many spaces a text has, escaped and quoted ones too. Each byte is counted, as one or none, so that many are at once.
fn spaces(s: &[u8]) -> usize
    ensures { result + 1 ≡ length (parts is_space s.now) }
{
    s.iter().map(|b| usize::from(*b == b' ')).sum()
}

// Row 5: whether there are over 64 terms. 65 need 129 bytes and 64 spaces between them: hardly a line has both.
fn many_flaw(line: &[u8]) -> Result<(), Refusal>
    ensures { result ≡ many_flaw line.now }
{
    if line.len() < 129 || spaces(line) < 64 {
        return Ok(());
    }
    let mut from: usize = 0;
    'turns: for _ in 0..64usize {
        let Some(Span { at, len }) = term_at(line, from) else {
            return Ok(());
        };
        from = at + len;
    }
    match term_at(line, from) {
        Some(Span { at, len: _ }) => Err(Refusal {
            number: 5,
            place: at,
        }),
        None => Ok(()),
    }
}

// Rows 1 to 5, in their order.
pub fn lexical(line: &[u8]) -> Result<(), Refusal>
    ensures { result ≡ lexical_of line.now }
{
    if 1024 < line.len() {
        return Err(Refusal {
            number: 1,
            place: 1024,
        });
    }
    let clean = text::printable_len(line);
    if clean < line.len() {
        return Err(Refusal {
            number: 2,
            place: clean,
        });
    }
    open_flaw(line)?;
    many_flaw(line)
}

// Whether a byte gives the bare byte n: outside quotes, after a GRAVE there, inside quotes, in any mode, and at the text's end.
#[tactic(auto, unfolding(text::specs::Lists::any_of, crate::specs::Signs::gives))]
fn out_bare(b: u8, n: u8) -> bool
    ensures { result ≡ any_of (is_bare n) (gives Mode.Out b) }
{
    b != b'`' && b == n
}

#[tactic(auto, unfolding(text::specs::Lists::any_of, crate::specs::Signs::gives))]
fn grave_bare(b: u8, n: u8) -> bool
    ensures { result ≡ any_of (is_bare n) (gives Mode.OutGrave b) }
{
    !is_twelve(b) && (n == b'`' || b == n)
}

// Inside quotes nothing is bare but the quote mark that closes.
#[tactic(auto, unfolding(text::specs::Lists::any_of, crate::specs::Signs::gives))]
fn in_bare(b: u8, n: u8) -> bool
    ensures { result ≡ any_of (is_bare n) (gives Mode.In b) }
{
    b == b'"' && b == n
}

#[tactic(auto, unfolding(text::specs::Lists::any_of, crate::specs::Signs::gives))]
fn gives_bare(m: Mode, b: u8, n: u8) -> bool
    ensures { result ≡ any_of (is_bare n) (gives m b) }
{
    match m {
        Mode::Out => out_bare(b, n),
        Mode::OutGrave => grave_bare(b, n),
        Mode::In => in_bare(b, n),
        Mode::InGrave => false,
    }
}

#[tactic(auto, unfolding(text::specs::Lists::any_of))]
fn ends_bare(m: Mode, n: u8) -> bool
    ensures { result ≡ any_of (is_bare n) (at_end m) }
{
    matches!(m, Mode::OutGrave) && n == b'`'
}

// Whether a text has this bare byte.
#[tactic(auto, using(crate::proofs::ScanLaws::some_stops, crate::proofs::ScanLaws::some_past), unfolding(crate::specs::Signs::has_bare))]
pub fn has_bare(s: &[u8], b: u8) -> bool
    ensures { result ≡ has_bare b s.now }
{
    let mut m = Mode::Out;
    for c in &s[ordinary_len(s, b)..] {
        if gives_bare(m, *c, b) {
            return true;
        }
        m = step(m, *c);
    }
    ends_bare(m, b)
}

// Whether a byte is a quote mark.
#[tactic(auto, unfolding(text::specs::Lists::any_of, crate::specs::Signs::gives))]
fn gives_mark(m: Mode, b: u8) -> bool
    ensures { result ≡ any_of is_mark (gives m b) }
{
    match m {
        Mode::Out | Mode::In => b == b'"',
        Mode::OutGrave | Mode::InGrave => false,
    }
}

// Whether a text has a quote mark, which is an unescaped `"`.
#[tactic(auto, using(crate::proofs::ScanLaws::some_on, crate::proofs::ScanLaws::some_stops, crate::proofs::ScanLaws::some_past, crate::proofs::ScanLaws::end_no_mark), unfolding(crate::specs::Marks::has_mark))]
pub fn has_quote(s: &[u8]) -> bool
    ensures { result ≡ has_mark s.now }
{
    let mut m = Mode::Out;
    for b in s {
        if gives_mark(m, *b) {
            return true;
        }
        m = step(m, *b);
    }
    false
}

// Whether a text's first sign is this bare byte.
#[tactic(auto, unfolding(text::specs::Lists::any_of, crate::specs::Marks::starts_bare, crate::specs::Signs::signs, crate::specs::Signs::gives, crate::specs::Signs::after))]
pub fn starts_bare(s: &[u8], b: u8) -> bool
    ensures { result ≡ starts_bare b s.now }
{
    match s {
        [] => false,
        [b'`', rest @ ..] => b == b'`' && !rest.first().is_some_and(|c| is_twelve(*c)),
        [c, ..] => out_bare(*c, b),
    }
}

// How many bytes a byte stands for: where no GRAVE takes it, after a GRAVE that escapes it or not, in any mode, and at the text's end.
#[tactic(auto, unfolding(crate::specs::Signs::stands, crate::specs::Signs::gives))]
fn one_meant(b: u8) -> usize
    ensures { result ≡ length (stands (gives Mode.Out b)) }
{
    match b {
        b'`' | b'"' => 0,
        _ => 1,
    }
}

fn pair_meant(escapes: bool) -> usize
    ensures { result ≡ cond escapes 1 2 }
{
    if escapes { 1 } else { 2 }
}

#[tactic(auto, unfolding(crate::specs::Signs::stands, crate::specs::Signs::gives))]
fn byte_meant(m: Mode, b: u8) -> usize
    ensures { result ≡ length (stands (gives m b)) }
{
    match m {
        Mode::Out | Mode::In => one_meant(b),
        Mode::OutGrave => pair_meant(is_twelve(b)),
        Mode::InGrave => pair_meant(is_two(b)),
    }
}

#[tactic(auto, unfolding(crate::specs::Signs::stands))]
fn end_meant(m: Mode) -> usize
    ensures { result ≡ length (stands (at_end m)) }
{
    match m {
        Mode::Out | Mode::In => 0,
        Mode::OutGrave | Mode::InGrave => 1,
    }
}

// How many bytes a text stands for.
#[tactic(auto, unfolding(crate::specs::Signs::meant))]
pub fn meant_len(s: &[u8]) -> usize
    ensures { result ≡ length (meant s.now) }
{
    let mut m = Mode::Out;
    let mut n: usize = 0;
    for b in s {
        n += byte_meant(m, *b);
        m = step(m, *b);
    }
    n + end_meant(m)
}

// One byte, w places after a place of the room; past its end nothing is written. Not by `get_mut`: after it a proof knows the room's length and none of its bytes.
fn put_after(out: &mut [u8], at: usize, w: usize, b: u8)
    ensures { out.new ≡ set out.old (at + w) b }
{
    if at < out.len() && w < out.len() - at {
        out[at + w] = b;
    }
}

// The bytes that a byte stands for, written as above; each tells how many they are.
#[tactic(auto, unfolding(crate::specs::Signs::stands, crate::specs::Signs::gives))]
fn put_one(out: &mut [u8], at: usize, w: usize, b: u8) -> usize
    ensures { (result ≡ length (stands (gives Mode.Out b))) × (out.new ≡ sets out.old (at + w) (stands (gives Mode.Out b))) }
{
    match b {
        b'`' | b'"' => 0,
        _ => {
            put_after(out, at, w, b);
            1
        }
    }
}

fn put_pair(out: &mut [u8], at: usize, w: usize, b: u8, escapes: bool) -> usize
    requires { w < 18446744073709551615 }
    ensures { (result ≡ length (cond escapes (b ∷ []) (96 ∷ b ∷ []))) × (out.new ≡ sets out.old (at + w) (cond escapes (b ∷ []) (96 ∷ b ∷ []))) }
{
    if escapes {
        put_after(out, at, w, b);
        return 1;
    }
    put_after(out, at, w, b'`');
    put_after(out, at, w + 1, b);
    2
}

#[tactic(auto, unfolding(crate::specs::Signs::stands, crate::specs::Signs::gives))]
fn put_byte(out: &mut [u8], at: usize, w: usize, m: Mode, b: u8) -> usize
    requires { w < 18446744073709551615 }
    ensures { (result ≡ length (stands (gives m b))) × (out.new ≡ sets out.old (at + w) (stands (gives m b))) }
{
    match m {
        Mode::Out | Mode::In => put_one(out, at, w, b),
        Mode::OutGrave => put_pair(out, at, w, b, is_twelve(b)),
        Mode::InGrave => put_pair(out, at, w, b, is_two(b)),
    }
}

fn put_grave(out: &mut [u8], at: usize, w: usize) -> usize
    ensures { (result ≡ 1) × (out.new ≡ set out.old (at + w) 96) }
{
    put_after(out, at, w, b'`');
    1
}

#[tactic(auto, unfolding(crate::specs::Signs::stands))]
fn put_end(out: &mut [u8], at: usize, w: usize, m: Mode) -> usize
    ensures { (result ≡ length (stands (at_end m))) × (out.new ≡ sets out.old (at + w) (stands (at_end m))) }
{
    match m {
        Mode::Out | Mode::In => 0,
        Mode::OutGrave | Mode::InGrave => put_grave(out, at, w),
    }
}

// The bytes that a text stands for, at a place of the room; what would stand past its end is not written. Tells how many they are.
#[tactic(auto, unfolding(crate::specs::Signs::meant))]
pub fn put_meant(out: &mut [u8], at: usize, s: &[u8]) -> usize
    ensures { (result ≡ length (meant s.now)) × (out.new ≡ sets out.old at (meant s.now)) }
{
    let mut m = Mode::Out;
    let mut w: usize = 0;
    for b in s {
        w += put_byte(out, at, w, m, *b);
        m = step(m, *b);
    }
    w + put_end(out, at, w, m)
}

// The bytes that a text stands for, at the room's start, or 19 where they don't fit.
pub fn write_meant(s: &[u8], out: &mut [u8]) -> Result<usize, Refusal>
    ensures { (result ≡ fitted (length out.old) (meant s.now)) × (out.new ≡ filled out.old (meant s.now)) }
{
    if out.len() < meant_len(s) {
        return Err(Refusal {
            number: 19,
            place: 0,
        });
    }
    Ok(put_meant(out, 0, s))
}
