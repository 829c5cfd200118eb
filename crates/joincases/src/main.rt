// Runs the joiner at its boundaries and writes, for each call, the bytes used, the outcome, the state and the whole
// line buffer as runs of equal bytes. Each buffer is filled with dots before the first call.
#![tactic(auto)]

ghost use Rattle.std.specs.Prelude.{◌≤◌};

use joiner::{End, Joined, Joiner};
use showing::{flag, number, onward, refusal, runs, say, title};
use text::Refusal;

fn outcome(o: Result<Option<usize>, Refusal>) {
    match o {
        Ok(None) => say(b"more "),
        Ok(Some(n)) => {
            say(b"line ");
            number(n);
        }
        Err(r) => refusal(r),
    }
}

fn state(s: Joiner) {
    say(b"state ");
    number(s.held);
    flag(s.grave);
    flag(s.cr);
    flag(s.over);
}

// Writes what a call gave and left.
fn show(r: Joined, buffer: &[u8]) {
    say(b"  used ");
    number(r.used);
    outcome(r.outcome);
    state(r.state);
    runs(buffer);
    say(b"\n");
}

fn call(s: Joiner, buffer: &mut [u8], part: &[u8]) -> Joiner {
    let r = s.join(buffer, part);
    show(r, buffer);
    r.state
}

// Call after call on what is left of a part, until it is used up.
fn feed(mut s: Joiner, buffer: &mut [u8], part: &[u8]) -> Joiner {
    let mut at = 0;
    // By the place, which the call moves by what it used.
    while at < part.len() {
        let r = s.join(buffer, &part[at..]);
        s = r.state;
        show(r, buffer);
        at = onward(at, r.used, part.len());
    }
    s
}

fn end(s: Joiner) {
    match s.end() {
        Ok(End::Nothing) => say(b"  end nothing\n"),
        Ok(End::Cut) => say(b"  end cut\n"),
        Err(r) => {
            say(b"  end ");
            refusal(r);
            say(b"\n");
        }
    }
}

// Calls on two parts from the start, and the end of the capture.
fn capture(one: &[u8], two: &[u8]) {
    let mut buffer = [b'.'; 1024];
    let mut s = Joiner::new();
    s = feed(s, &mut buffer, one);
    s = feed(s, &mut buffer, two);
    end(s);
}

// The same, where the first part is so many times `a`.
fn long(n: usize, two: &[u8])
    requires { n ≤ 1025 }
{
    let one = [b'a'; 1025];
    capture(&one[..n], two);
}

// A call from a state, and the end of the capture there.
fn from(s: Joiner, part: &[u8]) {
    let mut buffer = [b'.'; 1024];
    end(call(s, &mut buffer, part));
}

fn limit() {
    // 1,024 bytes
    title(1);
    long(1024, b"\n");
    // 1,025 bytes
    title(2);
    long(1025, b"\nb\r");
    // 1,024 bytes and no end of line
    title(3);
    long(1024, b"");
    // 1,025 bytes and no end of line
    title(4);
    long(1025, b"");
}

fn pairs() {
    // a pair before the limit
    title(5);
    long(1022, b"`b\n");
    // a pair across the limit
    title(6);
    long(1023, b"`b\n");
    // a pair past the limit
    title(7);
    long(1024, b"`b\n");
    // a GRAVE that waits at the limit, and joins
    title(8);
    long(1024, b"`\n\n");
    // a GRAVE that waits at the limit, and the end
    title(9);
    long(1024, b"`");
    // an escaped GRAVE before an end of line
    title(10);
    capture(b"a``\n", b"b```\nc\n");
}

fn joins() {
    // joins in the part thrown away
    title(11);
    long(1025, b"b`\r\nc`\nd``\ne\n");
    // show in two
    title(12);
    capture(b"sh`\r\now\n", b"");
    // show in two, cut after the CR
    title(13);
    capture(b"sh`\r", b"\now\n");
    // a join and nothing else held
    title(14);
    capture(b"`\n", b"");
    // a quote holds no line open
    title(15);
    capture(b"\"a\n", b"b\"\n");
}

fn ends() {
    // CR LF in one part
    title(16);
    capture(b"a\r\nb\n", b"");
    // CR LF cut between two calls
    title(17);
    capture(b"a\r", b"\nb\n");
    // the LF of a CR LF as a part of its own
    title(18);
    capture(b"a\r", b"\n");
    // CR, LF, CR CR, LF LF
    title(19);
    capture(b"a\rb\n\r", b"\r\n\n");
    // a GRAVE at the end
    title(20);
    capture(b"a\n", b"`");
}

fn odd(held: usize, grave: bool, cr: bool, over: bool, part: &[u8]) {
    let s = Joiner {
        held,
        grave,
        cr,
        over,
    };
    from(s, part);
}

fn states() {
    // an empty part: from the start, with text held, with a GRAVE, after a CR, too long
    title(21);
    odd(0, false, false, false, b"");
    odd(5, false, false, false, b"");
    odd(5, true, false, false, b"");
    odd(5, false, true, false, b"");
    odd(1024, false, false, true, b"");
    // an empty part from a state that no capture leads to
    title(22);
    odd(1025, false, false, false, b"");
}

fn impossible() {
    // over 1,024 held
    title(23);
    odd(1025, false, false, false, b"a\n");
    odd(1025, false, false, true, b"a\n");
    // too long with room
    title(24);
    odd(1023, false, false, true, b"a\n");
    // a GRAVE waits directly after a CR
    title(25);
    odd(0, true, true, false, b"\n");
    odd(1024, true, true, true, b"\n");
    // the last states that some capture leads to
    title(26);
    odd(1024, true, false, true, b"\n");
    odd(1024, false, true, true, b"\n\n");
}

fn lengths() {
    let mut short = [b'.'; 1023];
    let mut wide = [b'.'; 1025];
    let mut none = [b'.'; 1];
    let mut s = Joiner::new();
    // a buffer of 1,023 bytes, of 1,025, of 1
    title(27);
    s = call(s, &mut short, b"a\n");
    s = call(s, &mut wide, b"a\n");
    s = call(s, &mut none, b"a\n");
    // and an empty part
    title(28);
    s = call(s, &mut short, b"");
    s = call(s, &mut wide, b"");
    end(s);
}

fn row() {
    // joins one after another: by LF, by CR, by LF
    title(29);
    capture(b"z`\n`\r`\nq\n", b"");
}

fn main() {
    limit();
    pairs();
    joins();
    ends();
    states();
    impossible();
    lengths();
    row();
}
