// The lent tree: its check, the full path of a node, and the instances that a target addresses.
#![tactic(auto)]

ghost use Rattle.std.specs.Prelude.{◌≡◌, ◌+◌, ◌*◌, ◌/◌, ◌^◌, ◌≤◌, ◌<◌, [], ◌∷◌, ◌++◌, length, set, take, true, false, Ok, MatchOption, List, ℕ};
ghost use Rattle.std.specs.List.{list_any};
ghost use Rattle.std.specs.Simd.{first_chunks};
ghost use Rattle.std.proofs.lemmas.List.Edits.{sets};
ghost use Rattle.text.specs.Bytes.{same_bytes};
ghost use Rattle.text.specs.Decimal.{digits};
ghost use Rattle.text.specs.Lists.{all_of};
ghost use Rattle.text.specs.Room.{be16};
ghost use Rattle.tree.specs.Tree.{is_zero, parent_in, tag_len_in, tag_in, number_in, same_node, bad_form, check_tree, records, record_at, parent};
ghost use Rattle.tree.specs.Marks.{same_segment, mixed, mix_of};
ghost use Rattle.tree.specs.Resolve.{tagged_in, named_in, tagged_under, named_under, starred, in_tree, resolved_by, list_by, resolve_of, resolve_list, session', nodes};
ghost use Rattle.tree.specs.Steps.{verdict_of, along_from, instances_at, Within};
ghost use Rattle.tree.specs.Path.{path_up, path_answer, path_room};

use forms::{Piece, Where};
use text::Refusal;

// The instances that a text addresses: a session, or so many nodes at the lent list's start.
#[derive(Clone, Copy)]
pub enum Resolved {
    Session,
    Nodes(usize),
}

// Where a path leads: a node, or the children of a node that have the tag at a place.
#[derive(Clone, Copy)]
enum Spot {
    Node(usize),
    Tagged { node: usize, at: usize, tag: usize },
}

// How many bytes a record has, which `words` says: kind 0, parent 1 and 2, tag length 3, tag and padding 4 to 19, number 20 and 21.
const LEN: usize = words::NODE_LEN;

// A number's two bytes, high first.
fn be16(high: u8, low: u8) -> u16
    ensures { result ≡ be16 high low }
{
    u16::from_be_bytes([high, low])
}

fn zeros(s: &[u8]) -> bool
    ensures { result ≡ all_of is_zero s.now }
{
    s.iter().all(|b| *b == 0)
}

// Two texts of one length are the same. Byte by byte, up to the first difference: no more is read of them, as `==` would.
fn same_letters(a: &[u8], b: &[u8]) -> bool
    requires { length a.now ≡ length b.now }
    ensures { result ≡ same_bytes a.now b.now }
{
    a.iter().zip(b).all(|(x, y)| x == y)
}

// A parent, a number, a tag's length and its first and last letter, in one number.
fn mixed(parent: u16, number: u16, tag: u8, ends: u16) -> usize
    ensures { result ≡ mixed parent number tag ends }
{
    2286423 * usize::from(parent)
        + 5970133 * usize::from(number)
        + 5079001 * usize::from(tag)
        + 3506843 * usize::from(ends)
}

// A record whose tag has at most sixteen letters.
#[derive(Clone, Copy)]
struct Record<'a> {
    bytes: &'a [u8; LEN],
    ghost short: { tag_len_in bytes.now ≤ 16 },
}

impl<'a> Record<'a> {
    // The record that these bytes are, the one after k others, if it is good by its own bytes.
    fn of(bytes: &'a [u8; LEN], k: usize) -> Option<Record<'a>>
        ensures { MatchOption result (bad_form bytes.now k ≡ true) (λ r. (bad_form bytes.now k ≡ false) × (r.bytes.now ≡ bytes.now)) }
    {
        let tag_len = usize::from(bytes[3]);
        if bytes[0] != 16
            || 511 < k
            || k < text::pair(bytes[1], bytes[2])
            || !matches!(tag_len, 1..=16)
        {
            return None;
        }
        let end = 4 + tag_len;
        if text::letters_len(&bytes[4..end]) != tag_len
            || !zeros(&bytes[end..20])
            || text::pair(bytes[20], bytes[21]) == 0
        {
            return None;
        }
        Some(Record { bytes })
    }

    fn parent(self) -> usize
        ensures { result ≡ parent_in self.entry.bytes.now }
    {
        text::pair(self.bytes[1], self.bytes[2])
    }

    fn number(self) -> u16
        ensures { result ≡ number_in self.entry.bytes.now }
    {
        be16(self.bytes[20], self.bytes[21])
    }

    fn tag(self) -> &'a [u8]
        ensures { result.now ≡ tag_in self.entry.bytes.now }
    {
        let r = self.bytes;
        &r[4..4 + usize::from(r[3])]
    }

    // The record with these bytes has the same number and tag.
    fn same_segment(self, a: &[u8; LEN]) -> bool
        ensures { result ≡ same_segment a.now self.entry.bytes.now }
    {
        let b = self.bytes;
        if text::pair(a[20], a[21]) != text::pair(b[20], b[21]) {
            return false;
        }
        let len = a[3];
        let end = 4 + usize::from(len);
        len == b[3] && same_letters(&a[4..end], &b[4..end])
    }

    // The record with these bytes is the same node, this one under `parent`. Parents first: number and tag are looked at only where these agree.
    fn same_node(self, a: &[u8; LEN], parent: usize) -> bool
        requires { parent ≡ parent_in self.bytes.now }
        ensures { result ≡ same_node a.now self.entry.bytes.now }
    {
        text::pair(a[1], a[2]) == parent && self.same_segment(a)
    }

    // Some record of e is the same node.
    fn twin(self, e: &[[u8; LEN]]) -> bool
        ensures { result ≡ list_any (λ a. same_node a self.entry.bytes.now) e.now }
    {
        let parent = self.parent();
        e.iter().any(|a| self.same_node(a, parent))
    }

    // What tells the places of its marks.
    fn mix(self) -> usize
        ensures { result ≡ mix_of self.entry.bytes.now }
    {
        let r = self.bytes;
        mixed(
            be16(r[1], r[2]),
            be16(r[20], r[21]),
            r[3],
            be16(r[4], r[3 + usize::from(r[3])]),
        )
    }
}

// Whether a tree is good; if not, where its first bad record starts.
pub fn check(t: &[u8]) -> Result<(), usize>
    ensures { result ≡ check_tree t.now }
{
    let (records, cut) = t.as_chunks::<LEN>();
    // Each record that is passed leaves its two marks here.
    let mut marks = [false; 4096];
    for (k, r) in records.iter().enumerate() {
        let Some(r) = Record::of(r, k) else {
            return Err(LEN * k);
        };
        let m = r.mix();
        let mark = m % 4096;
        let other = m / 4096 % 4096;
        // If one of its two marks is missing it has no twin, and nothing is compared.
        if marks[mark] && marks[other] && r.twin(&records[..k]) {
            return Err(LEN * k);
        }
        marks[mark] = true;
        marks[other] = true;
    }
    if cut.is_empty() {
        Ok(())
    } else {
        Err(LEN * records.len())
    }
}

// ---- the full path of a node

impl<'a> Record<'a> {
    // How long a separator and its segment are.
    fn segment_len(self) -> usize
        ensures { (result ≡ 1 + length (tag_in self.entry.bytes.now ++ digits (number_in self.entry.bytes.now))) × (result ≤ 22) }
    {
        1 + self.tag().len() + text::width(self.number())
    }

    // A separator and its segment at a place of the room; tells the place after them.
    fn put_segment(self, out: &mut [u8], at: usize) -> usize
        requires { at < 2 ^ 32 }
        ensures { (result ≡ at + (1 + length (tag_in self.entry.bytes.now ++ digits (number_in self.entry.bytes.now)))) × (out.new ≡ sets out.old at (◌∷◌ 47 (tag_in self.entry.bytes.now ++ digits (number_in self.entry.bytes.now)))) }
    {
        let tag = self.tag();
        text::put(out, at, b'/');
        text::copy(out, at + 1, tag);
        let next = at + 1 + tag.len();
        next + text::put_decimal(out, next, self.number())
    }
}

// The bytes of a good tree.
#[derive(Clone, Copy)]
struct Tree<'a> {
    bytes: &'a [u8],
    ghost good: { check_tree bytes.now ≡ Ok tt },
}

impl<'a> Tree<'a> {
    // The record of node k is the one after k - 1 others.
    fn records(self) -> &'a [[u8; LEN]]
        ensures { (result.now ≡ first_chunks 22 (length self.entry.bytes.now / 22) self.entry.bytes.now) × (length result.now ≡ length self.entry.bytes.now / 22) }
    {
        self.bytes.as_chunks::<LEN>().0
    }

    fn count(self) -> usize
        ensures { result ≡ length self.entry.bytes.now / 22 }
    {
        self.records().len()
    }

    fn record(self, k: usize) -> Record<'a>
        requires { (1 ≤ k) × (k ≤ records self.bytes.now) }
        ensures { result.bytes.now ≡ take 22 (record_at self.entry.bytes.now k) }
    {
        Record {
            bytes: &self.records()[k - 1],
        }
    }

    // The parent of a node: a lower one.
    fn parent(self, k: usize) -> usize
        requires { (1 ≤ k) × (k ≤ records self.bytes.now) }
        ensures { (result ≡ parent self.entry.bytes.now k) × (result < k) }
    {
        self.record(k).parent()
    }

    // How long the way from the root to a node is, a separator before each segment.
    fn path_len(self, k: usize) -> usize
        requires { k ≤ records self.bytes.now }
        ensures { (result ≡ length (path_up k self.entry.bytes.now k)) × (result ≤ 22 * k) }
    {
        if k == 0 {
            return 0;
        }
        self.path_len(self.parent(k)) + self.record(k).segment_len()
    }

    // Writes the way from the root to a node, its parent's first; tells the place after it.
    fn write_path(self, k: usize, out: &mut [u8]) -> usize
        requires { k ≤ records self.bytes.now }
        ensures { (result ≡ length (path_up k self.entry.bytes.now k)) × (out.new ≡ sets out.old 0 (path_up k self.entry.bytes.now k)) × (result ≤ 22 * k) }
    {
        if k == 0 {
            return 0;
        }
        let at = self.write_path(self.parent(k), out);
        self.record(k).put_segment(out, at)
    }
}

// The full path of a node of a good tree.
fn path_in(t: Tree<'_>, k: usize, out: &mut [u8]) -> Result<usize, Refusal>
    ensures { (result ≡ path_answer (length out.old) t.entry.bytes.now k) × (out.new ≡ path_room out.old t.entry.bytes.now k) }
{
    if t.count() < k {
        return Err(Refusal {
            number: 16,
            place: 0,
        });
    }
    if k == 0 {
        if out.len() < 1 {
            return Err(Refusal {
                number: 19,
                place: 0,
            });
        }
        text::put(out, 0, b'/');
        return Ok(1);
    }
    let n = t.path_len(k);
    if out.len() < n {
        return Err(Refusal {
            number: 19,
            place: 0,
        });
    }
    t.write_path(k, out);
    Ok(n)
}

// Writes the full path of a node into the room's start, or refuses: 15 a bad tree, 16 no such node, 19 no room.
pub fn full_path(t: &[u8], k: usize, out: &mut [u8]) -> Result<usize, Refusal>
    ensures { (result ≡ path_answer (length out.old) t.now k) × (out.new ≡ path_room out.old t.now k) }
{
    match check(t) {
        Err(place) => Err(Refusal { number: 15, place }),
        Ok(()) => path_in(Tree { bytes: t }, k, out),
    }
}

// ---- the instances that a target addresses

impl<'a> Record<'a> {
    // It is a child of a node with a tag.
    fn is_tagged(self, node: usize, tag: &[u8]) -> bool
        ensures { result ≡ tagged_in self.entry.bytes.now node tag.now }
    {
        self.parent() == node && text::same(self.tag(), tag)
    }

    // It has a number besides.
    fn is_named(self, node: usize, tag: &[u8], number: u16) -> bool
        ensures { result ≡ named_in self.entry.bytes.now node tag.now number }
    {
        self.number() == number && self.is_tagged(node, tag)
    }
}

impl<'a> Tree<'a> {
    // The child of a node with a tag and a number.
    fn child(self, node: usize, tag: &[u8], number: u16) -> Option<usize>
        ensures { MatchOption result (named_under self.entry.bytes.now node tag.now number ≡ []) (λ m. (m ≤ records self.entry.bytes.now) × ((more : List ℕ) × (named_under self.entry.bytes.now node tag.now number ≡ ◌∷◌ m more))) }
    {
        for (k, r) in self.records().iter().enumerate() {
            let r = Record { bytes: r };
            if r.is_named(node, tag, number) {
                return Some(k + 1);
            }
        }
        None
    }

    // How many children of a node have a tag.
    fn count_tagged(self, node: usize, tag: &[u8]) -> usize
        ensures { result ≡ length (tagged_under self.entry.bytes.now node tag.now) }
    {
        let mut found = 0;
        for r in self.records() {
            let r = Record { bytes: r };
            found += usize::from(r.is_tagged(node, tag));
        }
        found
    }

    // The children of a node that have a tag, in record order, from the list's start on.
    fn put_tagged(self, node: usize, tag: &[u8], list: &mut [u16])
        ensures { list.new ≡ sets list.old 0 (tagged_under self.entry.bytes.now node tag.now) }
    {
        let mut at = 0;
        for (k, r) in self.records().iter().enumerate() {
            let r = Record { bytes: r };
            if r.is_tagged(node, tag) {
                put(list, at, (k + 1) as u16);
                at += 1;
            }
        }
    }
}

// From segment to segment, from a place of the text and a node on.
fn follow(text: &[u8], t: Tree<'_>, at: usize, node: usize) -> Result<Spot, Refusal>
    requires { node ≤ records t.bytes.now }
    ensures { (instances_at text.now t.entry.bytes.now result ≡ along_from text.now t.entry.bytes.now node at) × Within text.now t.entry.bytes.now result }
{
    if text.len() < at {
        return Ok(Spot::Node(node));
    }
    match forms::segment_at(text, at) {
        Some(Piece::Here { len }) => follow(text, t, at + len + 1, node),
        Some(Piece::Above { len }) => {
            if node == 0 {
                return Err(Refusal {
                    number: 17,
                    place: at,
                });
            }
            follow(text, t, at + len + 1, t.parent(node))
        }
        Some(Piece::Child { len, tag, number }) => {
            let Some(m) = t.child(node, &text[at..at + tag], number) else {
                return Err(Refusal {
                    number: 18,
                    place: at,
                });
            };
            follow(text, t, at + len + 1, m)
        }
        Some(Piece::Children { len: _, tag }) => Ok(Spot::Tagged { node, at, tag }),
        None => Err(Refusal {
            number: 12,
            place: 0,
        }),
    }
}

// A number at a place of the list; past its end nothing is written. By index: `get_mut` was tried, and no proof knows an element after it.
fn put(list: &mut [u16], at: usize, k: u16)
    ensures { list.new ≡ set list.old at k }
{
    if at < list.len() {
        list[at] = k;
    }
}

// One node into the list.
fn give_one(node: usize, list: &mut [u16]) -> Result<Resolved, Refusal>
    requires { node ≤ 512 }
    ensures { (result ≡ resolved_by (length list.old) (nodes (◌∷◌ node []))) × (list.new ≡ list_by list.old (nodes (◌∷◌ node []))) }
{
    if list.len() < 1 {
        return Err(Refusal {
            number: 19,
            place: 0,
        });
    }
    put(list, 0, node as u16);
    Ok(Resolved::Nodes(1))
}

// All children of a node with the tag that stands at a place, into the list.
fn give_tagged(
    t: Tree<'_>,
    node: usize,
    at: usize,
    tag: &[u8],
    list: &mut [u16],
) -> Result<Resolved, Refusal>
    ensures { (result ≡ resolved_by (length list.old) (starred t.entry.bytes.now node at tag.now)) × (list.new ≡ list_by list.old (starred t.entry.bytes.now node at tag.now)) }
{
    let n = t.count_tagged(node, tag);
    if n == 0 {
        return Err(Refusal {
            number: 18,
            place: at,
        });
    }
    if list.len() < n {
        return Err(Refusal {
            number: 19,
            place: 0,
        });
    }
    t.put_tagged(node, tag, list);
    Ok(Resolved::Nodes(n))
}

// What a path leads to from a place of the text and a node on, into the list.
fn give(
    text: &[u8],
    t: Tree<'_>,
    at: usize,
    node: usize,
    list: &mut [u16],
) -> Result<Resolved, Refusal>
    requires { node ≤ records t.bytes.now }
    ensures { (result ≡ resolved_by (length list.old) (along_from text.now t.entry.bytes.now node at)) × (list.new ≡ list_by list.old (along_from text.now t.entry.bytes.now node at)) }
{
    match follow(text, t, at, node)? {
        Spot::Node(n) => give_one(n, list),
        Spot::Tagged {
            node: n,
            at: p,
            tag,
        } => give_tagged(t, n, p, &text[p..p + tag], list),
    }
}

// 15 a bad tree, 16 a default target that is no node.
fn verdict(t: &[u8], default: usize) -> Result<(), Refusal>
    ensures { result ≡ verdict_of t.now default }
{
    if let Err(place) = check(t) {
        return Err(Refusal { number: 15, place });
    }
    let nodes = t.len() / LEN;
    if nodes < default {
        return Err(Refusal {
            number: 16,
            place: 0,
        });
    }
    Ok(())
}

// What a path leads to in a tree that may be bad, from a default target that may be no node.
fn give_from(
    text: &[u8],
    t: &[u8],
    default: usize,
    at: usize,
    node: usize,
    list: &mut [u16],
) -> Result<Resolved, Refusal>
    requires { node ≤ default }
    ensures { (result ≡ resolved_by (length list.old) (in_tree (check_tree t.now) t.now default (along_from text.now t.now node at))) × (list.new ≡ list_by list.old (in_tree (check_tree t.now) t.now default (along_from text.now t.now node at))) }
{
    verdict(t, default)?;
    give(text, Tree { bytes: t }, at, node, list)
}

// A session in a tree that may be bad, from a default target that may be no node.
fn give_session(t: &[u8], default: usize) -> Result<Resolved, Refusal>
    ensures { result ≡ resolved_by 0 (in_tree (check_tree t.now) t.now default session') }
{
    verdict(t, default)?;
    Ok(Resolved::Session)
}

// The nodes that a text addresses from a default target, in record order at the list's start; or a session; or a refusal: 12, 15, 16, 17, 18, 19.
pub fn resolve(text: &[u8], t: &[u8], default: usize, list: &mut [u16]) -> Result<Resolved, Refusal>
    ensures { (result ≡ resolve_of (length list.old) text.now t.now default) × (list.new ≡ resolve_list list.old text.now t.now default) }
{
    if text.len() == 0 {
        return give_from(text, t, default, 1, default, list);
    }
    match forms::target_of(text) {
        None => Err(Refusal {
            number: 12,
            place: reach::reach(text, reach::Form::Target),
        }),
        Some(Where::Session) => give_session(t, default),
        Some(Where::Path { rooted, segments }) => {
            if segments == 0 {
                return give_from(text, t, default, 2, 0, list);
            }
            if rooted {
                return give_from(text, t, default, 1, 0, list);
            }
            give_from(text, t, default, 0, default, list)
        }
    }
}
