// The form of a transcript (document 01, Transcript): its header, where its seven parts stand, and the lengths and numbers of part 7.
// Parts and executions are counted from 0. E and the hidden list are parameters by themselves: the prover has them and no file.
#![tactic(auto)]

ghost use Rattle.std.specs.Prelude.{◌≡◌, true, false, [], ℕ, ◌+◌, ◌*◌, ◌≤◌, ◌<◌, length, get_or};
ghost use Rattle.lists.specs.Check.{first};
ghost use Rattle.numbers.specs.Sum.{sum};
ghost use Rattle.refusals.specs.Refused.{verdict_of};
ghost use Rattle.protocol.specs.Key.{Key};
ghost use Rattle.protocol.specs.Prover.{opened, place};
ghost use Rattle.protocol.specs.Transcript.{Parts, parts_of, sizes, good_header};
ghost use Rattle.protocol.specs.Judge.{given_count, reply_size, good_numbers, form_checks};
ghost use Rattle.key.specs.Numbers.{Of, key_with};
ghost use Rattle.transcript.specs.Layout.{start_of};
ghost use Rattle.transcript.specs.Replies.{parts_with};
ghost use Rattle.transcript.specs.Seen.{seen};

mod parts;

use bytes4::{le32, numbers_below};
use forms::{good_hidden, good_opened, is_opened};
use key::Numbers;
pub use parts::FileParts;
use refusals::Refusal;

// The lengths of parts 1 to 6.
fn sizes(k: Numbers) -> [usize; 6]
    ensures bound { (i : ℕ) → get_or result i 0 ≤ 1056 }
    ensures value { (K : Key) → Of k K → result ≡ sizes K }
{
    let opened = k.opened;
    let kept = k.executions - opened;
    [32, opened, 16 * opened + 32 * kept + 32, 16, 32, kept]
}

// The length of part i, one of the first six.
pub fn part_size(k: Numbers, i: usize) -> usize
    requires { i < 6 }
    ensures { (result ≤ 1056) × ((K : Key) → Of k K → result ≡ get_or (sizes K) i 0) }
{
    sizes(k)[i]
}

// Where part i begins.
pub fn part_start(k: Numbers, i: usize) -> usize
    requires { i ≤ 6 }
    ensures { (result ≤ 6392) × ((K : Key) → Of k K → result ≡ start_of K i) }
{
    let mut at = 56;
    for j in 0..i {
        at += part_size(k, j);
    }
    at
}

// The first six pairs, each offset, and the file's end are right. A loop and not `all`: each place is the end of the one before.
pub fn good_header(x: &[u8], k: Numbers) -> bool
    ensures { (K : Key) → Of k K → result ≡ good_header K x.now }
{
    if x.len() < 56 {
        return false;
    }
    let lengths = sizes(k);
    let mut at = 56;
    for (i, &size) in lengths.iter().enumerate() {
        if le32(x, 2 * i) as usize != at || le32(x, 2 * i + 1) as usize != size {
            return false;
        }
        at += size;
    }
    let end = u64::from(le32(x, 12)) + u64::from(le32(x, 13));
    le32(x, 12) as usize == at && end == x.len() as u64
}

// The parts of a file whose header is good.
pub fn split<'a>(k: Numbers, x: &'a [u8]) -> FileParts<'a>
    requires { (K : Key) → Of k K → good_header K x.now ≡ true }
    ensures { seen result ≡ parts_of x.now }
{
    let [n1, n2, n3, n4, n5, n6] = sizes(k);
    let (p1, rest) = x[56..].split_at(n1);
    let (p2, rest) = rest.split_at(n2);
    let (p3, rest) = rest.split_at(n3);
    let (p4, rest) = rest.split_at(n4);
    let (p5, rest) = rest.split_at(n5);
    let (p6, p7) = rest.split_at(n6);
    FileParts {
        p1,
        p2,
        p3,
        p4,
        p5,
        p6,
        p7,
    }
}

// The hidden party, counted from 1, of the kept execution at a place; 0 past the list's end, as in the definitions: each caller would turn
// an Option into that 0.
pub fn hidden_at(hidden: &[u8], at: usize) -> usize
    ensures { result ≡ get_or hidden.now at 0 }
{
    hidden.get(at).map_or(0, |&party| usize::from(party))
}

// How many numbers part 7 holds of a kept execution whose hidden party, counted from 1, is h. h may be 0 here, where the
// hidden list is too short, so `execution::prepare`'s count, of a party counted from 0, cannot be called.
pub fn given_count(k: Numbers, h: usize) -> usize
    ensures { (result ≤ 385) × ((K : Key) (P : Parts) (x : ℕ) → Of k K → get_or P.p6 (place P.p2 x) 0 ≡ h → result ≡ given_count K P x) }
{
    if h == k.parties { k.m + 1 } else { 3 * k.m + 1 }
}

// How many bytes part 7 holds of a kept execution whose hidden party, counted from 1, is h. A sum of its own, as the count is.
pub fn reply_size(k: Numbers, h: usize) -> usize
    ensures { (result ≤ 1652) × ((K : Key) (P : Parts) (x : ℕ) → Of k K → opened P.p2 x ≡ false → get_or P.p6 (place P.p2 x) 0 ≡ h → result ≡ reply_size K P x) }
{
    16 * k.depth + 32 + 4 * given_count(k, h)
}

// Where the reply of execution x begins in part 7. The kept are counted by hand: over `(0..x).filter(..).enumerate()`, which was tried, the
// proof did not close, since each turn has to say of the executions that `filter` passed over that they add nothing.
pub fn reply_start(k: Numbers, e: &[u8], hidden: &[u8], x: usize) -> usize
    requires { x ≤ k.executions }
    ensures value { (K : Key) (P : Parts) → Of k K → P.p2 ≡ e.now → P.p6 ≡ hidden.now → result ≡ 16 + sum x (reply_size K P) }
    ensures upper_bound { result ≤ 16 + 1652 * x }
{
    let mut start = 16;
    let mut kept = 0;
    for i in 0..x {
        if is_opened(e, i) {
            continue;
        }
        start += reply_size(k, hidden_at(hidden, kept));
        kept += 1;
    }
    start
}

// The length that part 7 has to have.
pub fn replies_length(k: Numbers, e: &[u8], hidden: &[u8]) -> usize
    ensures { result ≡ 16 + sum k.executions (reply_size (key_with k []) (parts_with e.now hidden.now [])) }
{
    reply_start(k, e, hidden, k.executions)
}

// Every number of part 7, whose length is right, is below q. It walks E and counts the kept as `reply_start` does; one walk for both would
// take the turn as a closure, whose contract would say where each reply stands, as the loops' bodies do.
pub fn good_numbers(k: Numbers, e: &[u8], hidden: &[u8], replies: &[u8]) -> bool
    requires { length replies.now ≡ 16 + sum k.executions (reply_size (key_with k []) (parts_with e.now hidden.now replies.now)) }
    ensures { result ≡ good_numbers (key_with k []) (parts_with e.now hidden.now replies.now) }
{
    let mut at = 16;
    let mut kept = 0;
    for x in 0..k.executions {
        if is_opened(e, x) {
            continue;
        }
        let h = hidden_at(hidden, kept);
        let count = given_count(k, h);
        let end = at + reply_size(k, h);
        let from = end - 4 * count;
        if !numbers_below(&replies[from..end], k.modulus.q) {
            return false;
        }
        at = end;
        kept += 1;
    }
    true
}

// The first number of 7, 10, 13 and 14 that applies to parts 2, 6 and 7.
pub fn check_parts(k: Numbers, e: &[u8], hidden: &[u8], replies: &[u8]) -> Result<(), Refusal>
    ensures { (K : Key) (P : Parts) → Of k K → P.p2 ≡ e.now → P.p6 ≡ hidden.now → P.p7 ≡ replies.now → verdict_of result ≡ first (form_checks K P) }
{
    if !good_opened(e, k.opened, k.executions) {
        return Err(Refusal::OpenedList);
    }
    if !good_hidden(hidden, k.executions - k.opened, k.parties) {
        return Err(Refusal::HiddenList);
    }
    if replies.len() != replies_length(k, e, hidden) {
        return Err(Refusal::RepliesLength);
    }
    if !good_numbers(k, e, hidden, replies) {
        return Err(Refusal::RepliesNumber);
    }
    Ok(())
}
