// The records of a board's reply as text.
#![tactic(auto)]

ghost use Rattle.std.specs.Prelude.{◌≡◌, ◌∷◌, ◌+◌, ◌*◌, ◌≤◌};
ghost use lib.ListN.{length};
ghost use Rattle.std.proofs.lemmas.List.Edits.{sets};
ghost use Rattle.text.specs.Decimal.{digits};
ghost use Rattle.text.specs.Room.{be16};
ghost use Rattle.replytext.specs.Text.{line_by, reply_text};

use text::{copy, pair, put, put_decimal};

// A space and the number that two bytes are, high first, at a place of the room; tells where it ends.
fn put_number(out: &mut [u8], at: usize, high: u8, low: u8) -> usize
    requires { at ≤ 1000 }
    ensures { (result ≡ at + length (32 ∷ digits (be16 high low))) × (out.new ≡ sets out.old at (32 ∷ digits (be16 high low))) × (result ≤ at + 6) }
{
    put(out, at, b' ');
    at + 1 + put_decimal(out, at + 1, pair(high, low) as u16)
}

// A line of a word and the numbers that stand in some bytes, two to each; tells how many bytes it is.
fn put_line(out: &mut [u8], word: &[u8], numbers: &[u8]) -> usize
    requires { length word.now + 3 * length numbers.now ≤ 1000 }
    ensures { (result ≡ length (line_by word.now numbers.now)) × (out.new ≡ sets out.old 0 (line_by word.now numbers.now)) × (result ≤ length word.now + 3 * length numbers.now + 1) }
{
    copy(out, 0, word);
    let mut at = word.len();
    let mut rest = numbers;
    while let [high, low, more @ ..] = rest {
        at = put_number(out, at, *high, *low);
        rest = more;
    }
    put(out, at, b'\n');
    at + 1
}

// The record that some bytes begin with, as a line of text at the room's start; tells how many bytes it is, none where a reply has no such record.
pub fn record_text(rec: &[u8], out: &mut [u8]) -> usize
    ensures { (result ≡ length (reply_text rec.now)) × (out.new ≡ sets out.old 0 (reply_text rec.now)) × (result ≤ 29) }
{
    let [kind, ..] = rec else {
        return 0;
    };
    if rec.len() < words::reply_record_len(*kind) {
        return 0;
    }
    match kind {
        64 => put_line(out, b"item", &rec[1..9]),
        65 => put_line(out, b"group", &rec[1..5]),
        66 => put_line(out, b"endgroup", &[]),
        67 => put_line(out, b"endoutput", &[]),
        _ => 0,
    }
}
