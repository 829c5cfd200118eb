// What every layer uses: classes of bytes, equal texts, decimal numbers, and writing into lent room.
#![tactic(auto)]

ghost use Rattle.std.specs.Prelude.{◌≡◌, set, length, drop, ℕ, Bool};
ghost use Prim.Native.Nat.{◌+◌};
ghost use Rattle.std.proofs.lemmas.List.Edits.{sets};
ghost use Rattle.text.specs.Lists.{all_of, run_len};
ghost use Rattle.text.specs.Bytes.{same_bytes, is_letter, is_digit, is_word, printable};
ghost use Rattle.text.specs.Decimal.{decimal_of, width, digits};
ghost use Rattle.text.specs.Room.{be16, high_low};

// A refusal: its number in the papers, and its place. A number and no enum: the papers, the definitions, the records and the C face have no other name for it.
#[derive(Clone, Copy)]
pub struct Refusal {
    pub number: u8,
    pub place: usize,
}

pub fn is_letter(b: u8) -> bool
    ensures { result ≡ is_letter b }
{
    b.is_ascii_alphabetic()
}

pub fn is_digit(b: u8) -> bool
    ensures { result ≡ is_digit b }
{
    b.is_ascii_digit()
}

// A letter, a digit or an underscore.
#[tactic(auto, unfolding(crate::specs::Bytes::is_word))]
pub fn is_word(b: u8) -> bool
    ensures { result ≡ is_word b }
{
    is_letter(b) || is_digit(b) || b == b'_'
}

// A byte from 20h to 7Eh.
pub fn is_printable(b: u8) -> bool
    ensures { result ≡ printable b }
{
    matches!(b, b' '..=b'~')
}

#[tactic(auto, using(crate::proofs::Chains::same_listed))]
pub fn same(a: &[u8], b: &[u8]) -> bool
    ensures { result ≡ same_bytes a.now b.now }
{
    a == b
}

// How many bytes at the front of a text pass a test.
fn front_len<F: Fn(u8) -> bool>(s: &[u8], passes: F) -> usize
    requires { F.IsAlwaysCallable passes }
    ensures { (f : ℕ → Bool) → ((b : ℕ) (r : Bool) → F.post passes b r → r ≡ f b) → result ≡ run_len f s.now }
{
    s.iter().position(|b| !passes(*b)).unwrap_or(s.len())
}

// How many letters a text begins with.
pub fn letters_len(s: &[u8]) -> usize
    ensures { result ≡ run_len is_letter s.now }
{
    front_len(s, is_letter)
}

// How many letters, digits and underscores a text begins with.
pub fn words_len(s: &[u8]) -> usize
    ensures { result ≡ run_len is_word s.now }
{
    front_len(s, is_word)
}

// Whether sixteen bytes are printable. The loop has no other way out, so that all are compared at once.
#[tactic(auto, using(crate::proofs::Scans::all_kept, crate::proofs::Scans::all_ended))]
fn all_printable(block: &[u8; 16]) -> bool
    ensures { result ≡ all_of printable block.now }
{
    let mut all = true;
    for b in block {
        all &= is_printable(*b);
    }
    all
}

// How many printable bytes a text begins with: blocks of sixteen first.
pub fn printable_len(s: &[u8]) -> usize
    ensures { result ≡ run_len printable s.now }
{
    let mut rest = s;
    while let Some((block, more)) = rest.split_first_chunk() {
        if !all_printable(block) {
            break;
        }
        rest = more;
    }
    s.len() - rest.len() + front_len(rest, is_printable)
}

// The decimal number that a text is, if it is one of at most `most`.
pub fn decimal(s: &[u8], most: u32) -> Option<u64>
    ensures { result ≡ decimal_of most s.now }
{
    if *s.first()? == b'0' {
        return if s.len() == 1 { Some(0) } else { None };
    }
    let limit = u64::from(most);
    let mut v: u64 = 0;
    for b in s {
        if !is_digit(*b) {
            return None;
        }
        v = v * 10 + digit_value(*b);
        if limit < v {
            return None;
        }
    }
    Some(v)
}

// What a digit counts.
fn digit_value(b: u8) -> u64
    ensures { result ≡ Prim.Native.Nat.◌-◌ b 48 }
{
    u64::from(b.saturating_sub(b'0'))
}

// Two bytes as a number, high first.
pub fn pair(high: u8, low: u8) -> usize
    ensures { result ≡ be16 high low }
{
    usize::from(u16::from_be_bytes([high, low]))
}

// A number in two bytes, high first.
pub fn high_low(n: u16) -> [u8; 2]
    ensures { result ≡ high_low n }
{
    n.to_be_bytes()
}

// One byte at a place of the room; past its end nothing is written.
// The store is by index: what a slice ends as after `get_mut` no contract of it says, so that form was tried and not proved.
pub fn put(out: &mut [u8], at: usize, b: u8)
    ensures { out.new ≡ set out.old at b }
{
    if at < out.len() {
        out[at] = b;
    }
}

// A text at a place of the room; what would stand past its end is not written.
pub fn copy(out: &mut [u8], at: usize, src: &[u8])
    ensures { out.new ≡ sets out.old at src.now }
{
    if at < out.len() {
        let n = src.len().min(out.len() - at);
        // Not by `copy_from_slice`, which needs memmove: the library needs memcpy and memset alone (clp.h), and memcpy is what this becomes.
        for i in 0..n {
            out[at + i] = src[i];
        }
    }
}

// How many digits a number has in decimal.
#[tactic(auto, unfolding(crate::specs::Decimal::width))]
pub fn width(n: u16) -> usize
    ensures { result ≡ width n }
{
    match n {
        0..=9 => 1,
        10..=99 => 2,
        100..=999 => 3,
        1000..=9999 => 4,
        _ => 5,
    }
}

// The last digit of a number.
fn digit(n: u16) -> u8
    ensures { result ≡ 48 + Prim.Native.Nat.◌%◌ n 10 }
{
    b'0' + (n % 10) as u8
}

// A number in decimal at a place of the room; tells how many digits it has.
pub fn put_decimal(out: &mut [u8], at: usize, n: u16) -> usize
    ensures { (result ≡ length (digits n)) × (out.new ≡ sets out.old at (digits n)) }
{
    let all = [n / 10000, n / 1000, n / 100, n / 10, n].map(digit);
    let len = width(n);
    copy(out, at, &all[5 - len..]);
    len
}
