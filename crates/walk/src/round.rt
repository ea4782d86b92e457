// One execution of a transcript whose form is good: its refusal, its digests into the lists, and where the next one stands.

ghost use Rattle.std.specs.Prelude.{◌≡◌, true, false, suc, ◌+◌, ◌*◌, ◌-◌, ◌<◌, ◌≤◌, eqb, length, IfOk, OnErr};
ghost use Rattle.lists.specs.Index.{pick, same};
ghost use Rattle.lists.specs.Check.{first};
ghost use Rattle.refusals.specs.Refused.{verdict_of};
ghost use Rattle.protocol.specs.Key.{Key};
ghost use Rattle.protocol.specs.Prover.{opened};
ghost use Rattle.protocol.specs.Transcript.{Parts};
ghost use Rattle.protocol.specs.Judge.{execution_checks};
ghost use Rattle.walk.specs.Lists.{lists_size};
ghost use Rattle.walk.specs.Walk.{Reached, Stepped, checks_at, kept_tests, put};
ghost use Rattle.walk.specs.Runs.{Stands};

use crate::Run;
use execution::{Dealing, Statement, prepare};
use refusals::Refusal;

// Where an execution stands: how many before it are opened, and where its reply begins in part 7. It goes in, and where the next one stands
// comes out: only a turn knows how long its reply is.
#[derive(Clone, Copy, Debug, PartialEq, Eq)]
pub struct Place {
    pub rank: usize,
    pub at: usize,
}

// A digest to its place in the lists, which are taken whole: the clause says that the rest of them stays.
fn put_digest(digest: &[u8; 32], at: usize, lists: &mut [u8])
    requires { at + 32 ≤ length lists.old }
    ensures put { lists.new ≡ put lists.old at 32 digest.now }
    ensures lists_len_unchanged { length lists.new ≡ length lists.old }
{
    lists[at..at + 32].copy_from_slice(digest);
}

// Ω is the given one, or party N is hidden.
fn omega_good(parties: usize, hidden: usize, given: &[u8], omega: &[u8]) -> bool
    requires { hidden < parties }
    ensures { result ≡ pick (eqb (suc hidden) parties) true (same given.now omega.now) }
{
    hidden + 1 == parties || bytes4::same_bytes(given, omega)
}

// Ω and the sum of a kept execution are right.
#[tactic(auto, unfolding(lists::specs::Check::first))]
fn check_kept(good: bool, zero: bool) -> Result<(), Refusal>
    ensures { verdict_of result ≡ first (kept_tests good zero) }
{
    if !good {
        return Err(Refusal::Omega);
    }
    if !zero {
        return Err(Refusal::OutputSum);
    }
    Ok(())
}

// An execution that is opened by master seed.
fn opened_round(run: Run, e: usize, here: Place, lists: &mut [u8], work: &mut [u32]) -> Place
    requires reached { (K : Key) (P : Parts) → Stands run K P → Reached e here.rank here.at K P }
    requires e_lt_executions { e < run.executions }
    requires e_opened { opened run.parts.p2.now e ≡ true }
    requires lists_long { length lists.old ≡ lists_size run.executions (run.executions - run.openings) }
    requires work_long { 3 * run.statement.m * run.statement.parties ≤ length work.old }
    ensures stepped { (K : Key) (P : Parts) → Stands run.entry K P → Stepped K P e result.rank result.at lists.old lists.new }
    ensures lists_len_unchanged { length lists.new ≡ length lists.old }
    ensures work_len_unchanged { length work.new ≡ length work.old }
{
    let Statement {
        modulus,
        m,
        parties,
        depth,
        ..
    } = run.statement;
    let dealing = Dealing {
        modulus,
        m,
        parties,
        depth,
    };
    let from = 16 * here.rank;
    let master = run.parts.p3[from..from + 16].try_into().unwrap();
    // No heap: room for the seeds of the most parties.
    let mut leaves = [0; 512];
    let h = views::opened::opened_hash(dealing, e, master, &mut leaves[..16 * parties], work);
    put_digest(&h, 32 * e, lists);
    Place {
        rank: here.rank + 1,
        at: here.at,
    }
}

// A kept execution.
fn kept_round(
    run: Run,
    e: usize,
    here: Place,
    lists: &mut [u8],
    work: &mut [u32],
) -> Result<Place, Refusal>
    requires reached { (K : Key) (P : Parts) → Stands run K P → Reached e here.rank here.at K P }
    requires e_lt_executions { e < run.executions }
    requires e_kept { opened run.parts.p2.now e ≡ false }
    requires lists_long { length lists.old ≡ lists_size run.executions (run.executions - run.openings) }
    requires work_long { 3 * run.statement.m * run.statement.parties ≤ length work.old }
    ensures verdict { (K : Key) (P : Parts) → Stands run.entry K P → verdict_of result ≡ first (execution_checks K P e) }
    ensures stepped { IfOk result (λ next. (K : Key) (P : Parts) → Stands run.entry K P → Stepped K P e next.rank next.at lists.old lists.new) }
    ensures refused { OnErr result (lists.new ≡ lists.old) }
    ensures lists_len_unchanged { length lists.new ≡ length lists.old }
    ensures work_len_unchanged { length work.new ≡ length work.old }
{
    let statement = run.statement;
    let parties = statement.parties;
    let place = e - here.rank;
    let hidden = transcript::hidden_at(run.parts.p6, place) - 1;
    let end = here.at + prepare::reply_length(statement.m, parties, statement.depth, hidden);
    let p7 = run.parts.p7;
    let kappa = p7.first_chunk().unwrap();
    let seed = run.parts.p4.try_into().unwrap();
    // No heap: room for the seeds of the most parties.
    let mut leaves = [0; 512];
    let v = kept::kept_execution(
        statement,
        hidden,
        e,
        &p7[here.at..end],
        kappa,
        seed,
        &mut leaves[..16 * parties],
        work,
    );
    let from = 16 * run.openings + 32 * place;
    let good = omega_good(parties, hidden, &run.parts.p3[from..from + 32], &v.omega);
    check_kept(good, v.zero)?;
    let kept = run.executions - run.openings;
    put_digest(&v.h, 32 * e, lists);
    put_digest(&v.pi, 32 * run.executions + 32 * place, lists);
    put_digest(&v.psi, 32 * run.executions + 32 * kept + 32 * place, lists);
    Ok(Place {
        rank: here.rank,
        at: end,
    })
}

// Execution e: E, read at run time, says which step it is.
pub fn round(
    run: Run,
    e: usize,
    here: Place,
    lists: &mut [u8],
    work: &mut [u32],
) -> Result<Place, Refusal>
    requires reached { (K : Key) (P : Parts) → Stands run K P → Reached e here.rank here.at K P }
    requires e_lt_executions { e < run.executions }
    requires lists_long { length lists.old ≡ lists_size run.executions (run.executions - run.openings) }
    requires work_long { 3 * run.statement.m * run.statement.parties ≤ length work.old }
    ensures verdict { (K : Key) (P : Parts) → Stands run.entry K P → verdict_of result ≡ first (checks_at K P e) }
    ensures stepped { IfOk result (λ next. (K : Key) (P : Parts) → Stands run.entry K P → Stepped K P e next.rank next.at lists.old lists.new) }
    ensures refused { OnErr result (lists.new ≡ lists.old) }
    ensures lists_len_unchanged { length lists.new ≡ length lists.old }
    ensures work_len_unchanged { length work.new ≡ length work.old }
{
    if forms::is_opened(run.parts.p2, e) {
        return Ok(opened_round(run, e, here, lists, work));
    }
    kept_round(run, e, here, lists, work)
}
