// Records as text: each as its kind's word and fields in decimal, one line each.
#![tactic(auto)]

ghost use Rattle.std.specs.Prelude.{◌≡◌, ◌+◌, ◌≤◌, ◌<◌, length, get_or, MatchOption};
ghost use Rattle.std.proofs.lemmas.List.Edits.{sets};
ghost use Rattle.wording.specs.Words.{form_of, total, field_of, fields_text, wording_of, text_answer, text_room};
ghost use Rattle.wording.specs.Steps.{word_by, fields_by, len_by, first_text, field_text, wording_at, flaw_in, worded_text, answer_past, hindrance_by};

use text::{Refusal, copy, put, put_decimal};

// The word of a kind, and how many bytes each of its fields has; 0 is no kind. A match and no table of slices: a table is put on the stack whole at each lookup,
// and blank records took half as long again.
fn kind_of(number: u8) -> (&'static [u8], &'static [u8])
    requires { number ≤ 7 }
    ensures { (result.0.now ≡ word_by (form_of number)) × (result.1.now ≡ fields_by (form_of number)) }
{
    match number {
        1 => (b"verb", &[1]),
        2 => (b"option", &[1, 2, 2]),
        3 => (b"target", &[2, 2]),
        4 => (b"property", &[2, 2, 1, 2, 2]),
        5 => (b"refusal", &[1, 2]),
        6 => (b"blank", &[]),
        7 => (b"cut", &[]),
        _ => (b"", &[]),
    }
}

// How long the record is that `left` bytes begin with, where a reading has such a kind and it is not cut.
fn len_in(kind: u8, left: usize) -> Option<usize>
    ensures { MatchOption result (len_by (form_of kind) left ≡ 0) (λ n. (0 < n) × (n ≡ len_by (form_of kind) left)) }
{
    let all = words::record_len(kind);
    if 7 < kind || all == 0 || left < all {
        return None;
    }
    Some(all)
}

// A field's number: one byte, or two, high first.
fn number(field: &[u8]) -> u16
    ensures { result ≡ field_of (length field.now) field.now }
{
    match field {
        [] => 0,
        [b] => u16::from(*b),
        [high, low, ..] => u16::from_be_bytes([*high, *low]),
    }
}

// A space and a number at a place of the room; tells how many bytes they are.
fn put_field(out: &mut [u8], at: usize, n: u16) -> usize
    requires { at < 18446744073709551615 }
    ensures { (result ≡ length (field_text n)) × (out.new ≡ sets out.old at (field_text n)) }
{
    put(out, at, b' ');
    1 + put_decimal(out, at + 1, n)
}

// The fields of a body at a place of the room, by their widths; tells how many bytes they are.
fn put_fields(out: &mut [u8], at: usize, widths: &[u8], body: &[u8]) -> usize
    requires widths_in_bounds { total widths.now ≤ length body.now }
    requires body_bound { at + length (fields_text widths.now body.now) ≤ 18446744073709551615 }
    ensures { (result ≡ length (fields_text widths.now body.now)) × (out.new ≡ sets out.old at (fields_text widths.now body.now)) }
{
    let mut rest = body;
    let mut n = 0;
    for w in widths {
        let (field, more) = rest.split_at(usize::from(*w));
        n += put_field(out, at + n, number(field));
        rest = more;
    }
    n
}

// A record, its kind first, as a line of text at a place of the room; tells how many bytes it is.
fn put_record(out: &mut [u8], at: usize, rec: &[u8]) -> usize
    requires nonzero { 0 < len_by (form_of (get_or rec.now 0 0)) (length rec.now) }
    requires rec_bound { at + length (first_text rec.now) ≤ 18446744073709551615 }
    ensures { (result ≡ length (first_text rec.now)) × (out.new ≡ sets out.old at (first_text rec.now)) }
{
    let (word, widths) = kind_of(rec[0]);
    copy(out, at, word);
    let n = word.len() + put_fields(out, at + word.len(), widths, &rec[1..]);
    put(out, at + n, b'\n');
    n + 1
}

// How many bytes of text a record is.
fn text_len(rec: &[u8]) -> usize
    requires { 0 < len_by (form_of (get_or rec.now 0 0)) (length rec.now) }
    ensures { result ≡ length (first_text rec.now) }
{
    put_record(&mut [], 0, rec)
}

// The first bad record from place `p` on. This walk and the two below go by the place: a refusal names it, and the walk on from there begins at it.
fn flaw(records: &[u8], mut p: usize) -> Result<(), Refusal>
    requires { p ≤ length records.now }
    ensures { result ≡ flaw_in (wording_at p records.now) }
{
    while p < records.len() {
        let Some(n) = len_in(records[p], records.len() - p) else {
            return Err(Refusal {
                number: 15,
                place: p,
            });
        };
        p += n;
    }
    Ok(())
}

// The answer where the text does not fit: a bad record from place `p` on comes first.
fn no_room(records: &[u8], p: usize) -> Result<usize, Refusal>
    requires { p ≤ length records.now }
    ensures { result ≡ answer_past (flaw_in (wording_at p records.now)) }
{
    flaw(records, p)?;
    Err(Refusal {
        number: 19,
        place: 0,
    })
}

// What writing the text of records into so many bytes of room answers.
fn measured(records: &[u8], room: usize) -> Result<usize, Refusal>
    ensures { result ≡ text_answer room (wording_of records.now) }
{
    let mut p: usize = 0;
    let mut at: usize = 0;
    while p < records.len() {
        let Some(n) = len_in(records[p], records.len() - p) else {
            return Err(Refusal {
                number: 15,
                place: p,
            });
        };
        let w = text_len(&records[p..]);
        if room - at < w {
            return no_room(records, p + n);
        }
        at += w;
        p += n;
    }
    Ok(at)
}

// What hinders writing the text of records into so many bytes of room: a bad record, or 19. No record's text is more than six times as long as it.
fn hindrance(records: &[u8], room: usize) -> Result<(), Refusal>
    ensures { result ≡ hindrance_by (text_answer room (wording_of records.now)) }
{
    if records.len() <= room / 6 {
        return flaw(records, 0);
    }
    measured(records, room)?;
    Ok(())
}

// Writes the text of records that are good, where it fits; tells how many bytes it is.
fn write_text(records: &[u8], out: &mut [u8]) -> usize
    requires records_value { flaw_in (wording_of records.now) ≡ Ok tt }
    requires records_in_bounds { length (worded_text (wording_of records.now)) ≤ length out.old }
    ensures { (result ≡ length (worded_text (wording_of records.now))) × (out.new ≡ sets out.old 0 (worded_text (wording_of records.now))) }
{
    let mut p: usize = 0;
    let mut at: usize = 0;
    while p < records.len() {
        let Some(n) = len_in(records[p], records.len() - p) else {
            return at;
        };
        let w = put_record(out, at, &records[p..]);
        at += w;
        p += n;
    }
    at
}

// Records as text, one line each, in lent room.
pub fn records_text(records: &[u8], out: &mut [u8]) -> Result<usize, Refusal>
    ensures value { result ≡ text_answer (length out.old) (wording_of records.now) }
    ensures out_after { out.new ≡ text_room out.old (wording_of records.now) }
{
    hindrance(records, out.len())?;
    Ok(write_text(records, out))
}
