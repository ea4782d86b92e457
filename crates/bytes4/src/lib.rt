// Numbers of four bytes, little-endian (document 01), in lists of bytes, and lists of bytes compared.
#![tactic(auto)]

ghost use Rattle.std.specs.Prelude.{◌≡◌, ◌+◌, ◌*◌, ◌/◌, ◌≤◌, ltb, length};
ghost use Rattle.lists.specs.Tab.{tab};
ghost use Rattle.lists.specs.Bytes.{le4, words, num};
ghost use Rattle.lists.specs.Index.{every, same};
ghost use Rattle.lists.specs.ByteList.{Bytes};

// Number j of the list, the first being number 0: one of a header or a row by its place, where a whole list is read by `read_numbers`.
pub fn le32(b: &[u8], j: usize) -> u32
    requires { 4 * j + 4 ≤ length b.now }
    ensures { result ≡ num b.now j }
{
    let four = b[4 * j..].first_chunk::<4>().unwrap();
    u32::from_le_bytes(*four)
}

// The two lists have the same bytes. Compared by place and not by `==`, so that a must-fail edit can pass over every second byte.
pub fn same_bytes(a: &[u8], b: &[u8]) -> bool
    ensures { result ≡ same a.now b.now }
{
    a.len() == b.len() && (0..a.len()).all(|i| a[i] == b[i])
}

// The four bytes of x.
#[tactic(auto, unfolding(lists::specs::Bytes::le4))]
pub fn put32(x: u32, out: &mut [u8])
    requires { length out.old ≡ 4 }
    ensures { out.new ≡ le4 x }
{
    out.copy_from_slice(&x.to_le_bytes());
}

// Each number of a list in four bytes. The parts are cut out by place: of what a turn of `chunks_exact_mut` wrote nothing is known when
// the loan ends.
pub fn put_numbers(xs: &[u32], out: &mut [u8])
    requires { length out.old ≡ 4 * length xs.now }
    ensures { out.new ≡ words xs.now }
{
    for (k, x) in xs.iter().enumerate() {
        put32(*x, &mut out[4 * k..4 * k + 4]);
    }
}

// The numbers of a list of bytes. `execution::fill`, which takes the number at a place as a closure, stands above.
pub fn read_numbers(bytes: &[u8], out: &mut [u32])
    requires { length bytes.now ≡ 4 * length out.old }
    ensures { out.new ≡ tab (length out.old) (num bytes.now) }
{
    for (j, number) in out.iter_mut().enumerate() {
        *number = le32(bytes, j);
    }
}

// Every number of a list of bytes is below q.
pub fn numbers_below(bytes: &[u8], q: u32) -> bool
    ensures { result ≡ every (length bytes.now / 4) (λ j. ltb (num bytes.now j) q) }
{
    let (numbers, _) = bytes.as_chunks();
    numbers.iter().all(|&four| u32::from_le_bytes(four) < q)
}

// Every list that is lent as bytes is a list of bytes. The read is how the proof comes to know it; nothing is done with the byte.
pub fn lent_bytes(b: &[u8])
    ensures { Bytes b.now }
{
    if b.len() > 0 {
        let first = b[0] as u32;
    }
}
