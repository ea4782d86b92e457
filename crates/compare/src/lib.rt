// The first two hash inputs of two transcripts that differ (document 01, Pair reader), as a place in the lists that hold them.
#![tactic(auto)]

mod sides;

ghost use Rattle.std.specs.Prelude.{◌≡◌, ◌-◌, ◌<◌, length, None, IfSome, All};
ghost use Rattle.lists.specs.Index.{cat};
ghost use Rattle.walk.specs.Lists.{lists_size};
ghost use Rattle.inputs.specs.Layout.{execution_size};
ghost use Rattle.compare.specs.Kinds.{number};
ghost use Rattle.compare.specs.Spots.{Inside, at, shown, open_both, on_hashes, on_party, on_last, on_rest, on_all};
ghost use Rattle.compare.specs.Between.{Fits, differ_at, first_between};

use bytes4::same_bytes;
pub use sides::{Compared, Side};

// Which hash input two transcripts differ in.
#[derive(Clone, Copy, Debug, PartialEq, Eq)]
pub enum Kind {
    HGamma = 1,
    H = 2,
    Gamma = 3,
    Omega = 4,
    HPi = 5,
    Pi = 6,
    HPsi = 7,
    Psi = 8,
}

impl Kind {
    // Its number in document 01. `Refusal::number` is the same line for another enum.
    pub fn number(self) -> u32
        ensures { result ≡ number self }
    {
        self as u32
    }
}

// Which lists hold an input: those of the list hashes, or those of the execution.
#[derive(Clone, Copy, Debug, PartialEq, Eq)]
pub enum Source {
    Lists,
    Execution,
}

// Two inputs that differ: their kind, the party from 1 on (N for Ω) where it is one party's, and where both begin and how long both are.
// A place and no slice, since it names the input in the lists of both transcripts.
#[derive(Clone, Copy, Debug, PartialEq, Eq)]
pub struct Spot {
    pub kind: Kind,
    pub party: Option<usize>,
    pub source: Source,
    pub from: usize,
    pub length: usize,
}

impl Spot {
    // A place in the lists of the list hashes.
    fn listed(kind: Kind, from: usize, size: usize) -> Spot
        ensures { result ≡ at kind None Source.Lists from size }
    {
        Spot {
            kind,
            party: None,
            source: Source::Lists,
            from,
            length: size,
        }
    }

    // A place in the lists of the execution.
    fn opened(kind: Kind, party: Option<usize>, from: usize, size: usize) -> Spot
        ensures { result ≡ at kind party Source.Execution from size }
    {
        Spot {
            kind,
            party,
            source: Source::Execution,
            from,
            length: size,
        }
    }

    // The input at this place of a transcript's lists.
    pub fn input<'a>(self, side: Side<'a>) -> &'a [u8]
        requires { Inside (length side.lists.now) (length side.inputs.now) self }
        ensures { result.now ≡ shown self side.entry.lists.now side.entry.inputs.now }
    {
        match self.source {
            Source::Lists => &side.lists[self.from..][..self.length],
            Source::Execution => &side.inputs[self.from..][..self.length],
        }
    }
}

impl Compared<'_> {
    // The lists differ at a place.
    fn differ_at(self, spot: Spot) -> bool
        requires { Fits self spot }
        ensures { result ≡ differ_at self.entry spot }
    {
        !same_bytes(spot.input(self.one), spot.input(self.two))
    }

    // The first of these places at which the lists differ.
    fn first_of(self, spots: &[Spot]) -> Option<Spot>
        requires { All (Fits self) spots.now }
        ensures { result ≡ first_between spots.now self.entry }
    {
        spots.iter().copied().find(|&spot| self.differ_at(spot))
    }

    // Party i is hidden in neither.
    #[tactic(auto, unfolding(crate::specs::Spots::open_both, lists::specs::Index::holds))]
    fn open_in_both(self, i: usize) -> bool
        ensures { result ≡ open_both self.entry.one.hidden self.entry.two.hidden i }
    {
        i != self.one.hidden && i != self.two.hidden
    }

    // hΓ and h(e).
    fn of_hashes(self) -> Option<Spot>
        ensures { result ≡ first_between (on_hashes self.entry.numbers.executions self.entry.numbers.parties) self.entry }
    {
        let h_gamma = Spot::listed(Kind::HGamma, 0, 32 * self.numbers.executions);
        let h = Spot::opened(Kind::H, None, 0, 32 * self.numbers.parties);
        self.first_of(&[h_gamma, h])
    }

    // Γ of party i, where it is open in both.
    fn of_party(self, i: usize) -> Option<Spot>
        requires { i < self.numbers.parties }
        ensures { result ≡ first_between (on_party self.entry.numbers.m self.entry.numbers.parties self.entry.one.hidden self.entry.two.hidden i) self.entry }
    {
        if !self.open_in_both(i) {
            return None;
        }
        let from = 32 * self.numbers.parties + 32 * i;
        let length = if i + 1 == self.numbers.parties {
            32 + 4 * self.numbers.m
        } else {
            32
        };
        self.first_of(&[Spot::opened(Kind::Gamma, Some(i + 1), from, length)])
    }

    // Γ of the parties that are open in both. Of `|i| self.of_party(i)` no `ensures` is inferred: by `find_map` the closure would have to
    // repeat the clauses of `of_party`.
    fn of_parties(self) -> Option<Spot>
        ensures { result ≡ first_between (cat self.entry.numbers.parties (on_party self.entry.numbers.m self.entry.numbers.parties self.entry.one.hidden self.entry.two.hidden)) self.entry }
    {
        for i in 0..self.numbers.parties {
            if let Some(spot) = self.of_party(i) {
                return Some(spot);
            }
        }
        None
    }

    // Ω, where N is open in both.
    fn of_last(self) -> Option<Spot>
        ensures { result ≡ first_between (on_last self.entry.numbers.m self.entry.numbers.parties self.entry.one.hidden self.entry.two.hidden) self.entry }
    {
        let m = self.numbers.m;
        let parties = self.numbers.parties;
        if !self.open_in_both(parties - 1) {
            return None;
        }
        let from = 64 * parties + 4 * m;
        self.first_of(&[Spot::opened(Kind::Omega, Some(parties), from, 4 * m + 16)])
    }

    // hπ, Π, hψ and Ψ.
    fn of_rest(self) -> Option<Spot>
        ensures { result ≡ first_between (on_rest self.entry.numbers.m self.entry.numbers.parties self.entry.numbers.executions (self.entry.numbers.executions - self.entry.numbers.opened)) self.entry }
    {
        let m = self.numbers.m;
        let parties = self.numbers.parties;
        let executions = self.numbers.executions;
        let kept = executions - self.numbers.opened;
        let grid = 4 * m * parties;
        let h_pi = Spot::listed(Kind::HPi, 32 * executions, 32 * kept);
        let pi = Spot::opened(Kind::Pi, None, 64 * parties + 8 * m + 16, grid + 16);
        let h_psi = Spot::listed(Kind::HPsi, 32 * executions + 32 * kept, 32 * kept);
        let psi = Spot::opened(
            Kind::Psi,
            None,
            64 * parties + 8 * m + grid + 32,
            4 * parties + 16,
        );
        self.first_of(&[h_pi, pi, h_psi, psi])
    }

    // The first two inputs that differ. Of `|| self.of_last()` no `ensures` is inferred: by `or_else` each closure would have to repeat the
    // clause of what it calls.
    pub fn first_difference(self) -> Option<Spot>
        ensures inside { IfSome result (λ r. Inside (lists_size self.entry.numbers.executions (self.entry.numbers.executions - self.entry.numbers.opened)) (execution_size self.entry.numbers.m self.entry.numbers.parties) r) }
        ensures value { result ≡ first_between (on_all self.entry.numbers.m self.entry.numbers.parties self.entry.numbers.executions (self.entry.numbers.executions - self.entry.numbers.opened) self.entry.one.hidden self.entry.two.hidden) self.entry }
    {
        if let Some(spot) = self.of_hashes() {
            return Some(spot);
        }
        if let Some(spot) = self.of_parties() {
            return Some(spot);
        }
        if let Some(spot) = self.of_last() {
            return Some(spot);
        }
        self.of_rest()
    }
}
