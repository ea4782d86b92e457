// What the functions over an execution are given together: its numbers, and the lists in which it stands. Each type is flat: of a value
// that `From` makes of another the caller knows no more than that fields are equal, and the search then leaves `leaves_long` of
// `masks::draw_masks` open; one type inside another makes every clause longer. Nothing compares or prints the types that lend lists.
//
// Lists that are lent to be written stand beside the types, each with its length in the contract: of a struct of `&mut` lists a contract
// would also have to say of each that it is still the lent one. An execution's number is below 32 in each contract that takes one, and a
// party's below N: a type of its own would be taken apart in every hash input and be no plainer. κ and L stand beside it: they are of the
// whole run. A list that few functions read, and a number that a function takes alone, are asked for their length and bound there.

ghost use Rattle.std.specs.Prelude.{◌≡◌, ◌+◌, ◌*◌, ◌^◌, ◌≤◌, length};
ghost use Rattle.numbers.specs.Inverse.{Member, Ns};
ghost use Rattle.execution.specs.Lists.{Reduced};

use numbers::Modulus;

// The modulus, the columns and the parties: what shares are drawn and summed by.
#[derive(Clone, Copy, Debug, PartialEq, Eq)]
pub struct Sharing {
    pub modulus: Modulus,
    pub m: usize,
    pub parties: usize,
    pub ghost m_most: { m ≤ 128 },
    pub ghost parties_least: { 1 ≤ parties },
    pub ghost parties_most: { parties ≤ 32 },
}

// The same with the depth of the seed tree: what an execution is dealt or reopened by.
#[derive(Clone, Copy, Debug, PartialEq, Eq)]
pub struct Dealing {
    pub modulus: Modulus,
    pub m: usize,
    pub parties: usize,
    pub depth: usize,
    pub ghost m_most: { m ≤ 128 },
    pub ghost parties_least: { 1 ≤ parties },
    pub ghost parties_most: { parties ≤ 32 },
    pub ghost full: { 2 ^ depth ≡ parties },
}

// The shares of the parties that are open, each below q. The hidden party is N where nobody is hidden: no party has that number, so that
// `i == hidden` serves both cases, and an Option would be turned into it for specs/.
#[derive(Clone, Copy)]
pub struct OpenShares<'a> {
    pub modulus: Modulus,
    pub m: usize,
    pub parties: usize,
    pub hidden: usize,
    pub work: &'a [u32],
    pub ghost m_most: { m ≤ 128 },
    pub ghost parties_least: { 1 ≤ parties },
    pub ghost parties_most: { parties ≤ 32 },
    pub ghost work_long: { 3 * m * parties ≤ length work.now },
    pub ghost reduced: { Reduced modulus.q m parties hidden work.now },
}

// The parties' seeds, 16 bytes each, and their b, d and s in turn, m numbers each.
#[derive(Clone, Copy)]
pub struct Lists<'a> {
    pub m: usize,
    pub parties: usize,
    pub leaves: &'a [u8],
    pub work: &'a [u32],
    pub ghost m_most: { m ≤ 128 },
    pub ghost parties_least: { 1 ≤ parties },
    pub ghost parties_most: { parties ≤ 32 },
    pub ghost leaves_long: { length leaves.now ≡ 16 * parties },
    pub ghost work_long: { 3 * m * parties ≤ length work.now },
}

// A key as its executions use it: its numbers, and the entries of A and t.
#[derive(Clone, Copy)]
pub struct Statement<'a> {
    pub modulus: Modulus,
    pub n: usize,
    pub m: usize,
    pub parties: usize,
    pub depth: usize,
    pub entries: &'a [u32],
    pub ghost n_most: { n ≤ 32 },
    pub ghost m_most: { m ≤ 128 },
    pub ghost parties_listed: { Member parties Ns },
    pub ghost parties_least: { 1 ≤ parties },
    pub ghost parties_most: { parties ≤ 32 },
    pub ghost full: { 2 ^ depth ≡ parties },
    pub ghost entries_long: { n * (m + 1) ≤ length entries.now },
}

// The open parties' shares, and the statement that they are answered for.
#[derive(Clone, Copy)]
pub struct Evaluation<'a> {
    pub modulus: Modulus,
    pub n: usize,
    pub m: usize,
    pub parties: usize,
    pub hidden: usize,
    pub entries: &'a [u32],
    pub work: &'a [u32],
    pub ghost n_most: { n ≤ 32 },
    pub ghost m_most: { m ≤ 128 },
    pub ghost parties_listed: { Member parties Ns },
    pub ghost parties_least: { 1 ≤ parties },
    pub ghost parties_most: { parties ≤ 32 },
    pub ghost entries_long: { n * (m + 1) ≤ length entries.now },
    pub ghost work_long: { 3 * m * parties ≤ length work.now },
    pub ghost reduced: { Reduced modulus.q m parties hidden work.now },
}
