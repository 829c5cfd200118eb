// A reader that carries the lent line with its place and yields the next term. The functions over the struct are thin: each takes it apart and
// calls a function on the slice and the number.
#![tactic(auto)]

ghost use Rattle.std.specs.Prelude.{◌≡◌};
ghost use Rattle.carried.specs.Carried.{yield_at, past_at};

use terms::{Span, lexical, term_at};
use text::Refusal;

// The line, and the place from which the next term is looked for.
#[derive(Clone, Copy)]
pub struct Reader<'a> {
    pub line: &'a [u8],
    pub at: usize,
}

// The work: what a line yields at a place, the next term or none; or the line's refusal by rows 1 to 5.
pub fn yield_at(line: &[u8], at: usize) -> Result<Option<Span>, Refusal>
    ensures { result ≡ yield_at line.now at }
{
    lexical(line)?;
    Ok(term_at(line, at))
}

// The place past what a line yields at a place: the term's end, or the place itself where there is no term.
pub fn past_at(line: &[u8], at: usize) -> usize
    ensures { result ≡ past_at line.now at }
{
    let Ok(Some(term)) = yield_at(line, at) else {
        return at;
    };
    term.at + term.len
}

// A reader at the line's start.
pub fn new<'a>(line: &'a [u8]) -> Reader<'a>
    ensures { (result.line ≡ line.entry) × (result.at ≡ 0) }
{
    Reader { line, at: 0 }
}

// What the reader yields; it does not move.
pub fn next<'a>(r: Reader<'a>) -> Result<Option<Span>, Refusal>
    ensures { result ≡ yield_at r.entry.line.now r.entry.at }
{
    yield_at(r.line, r.at)
}

// The reader past what it yields.
pub fn moved<'a>(r: Reader<'a>) -> Reader<'a>
    ensures { (result.line ≡ r.entry.line) × (result.at ≡ past_at r.entry.line.now r.entry.at) }
{
    let at = past_at(r.line, r.at);
    Reader { line: r.line, at }
}

// The first term of a line, for a caller with a plain slice.
pub fn first(line: &[u8]) -> Result<Option<Span>, Refusal>
    ensures { result ≡ yield_at line.now 0 }
{
    next(new(line))
}
