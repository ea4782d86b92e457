// A kept execution as the judge sees it.
#![tactic(auto)]

ghost use Rattle.std.specs.Prelude.{◌≡◌, suc, ◌+◌, ◌*◌, ◌<◌, ◌≤◌, length, replicate};
ghost use Rattle.sha_core.specs.Fips180.{sha256};
ghost use Rattle.protocol.specs.Key.{Key};
ghost use Rattle.protocol.specs.Shares.{View, Ωin};
ghost use Rattle.protocol.specs.Transcript.{Parts};
ghost use Rattle.execution.specs.Prepared.{Kept, Given, last_count};
ghost use Rattle.views.specs.Seen.{ForΩ};
ghost use Rattle.kept.specs.Kept.{KeptIn, Evaluates};

use execution::{Dealing, Evaluation, Lists, OpenShares, Statement, prepare};

// What the judge computes of a kept execution. Ω is 32 zero bytes where party N is hidden, as specs/Kept has it: nothing tests it then, and
// an Option would be turned into them for the clause. `zero` says whether the outputs add up to 0 modulo q. Nothing compares or prints it.
#[derive(Clone, Copy)]
pub struct Evaluated {
    pub h: [u8; 32],
    pub omega: [u8; 32],
    pub pi: [u8; 32],
    pub psi: [u8; 32],
    pub zero: bool,
}

// Ω of a kept execution; 32 zero bytes where party N is hidden.
fn omega_at(lists: Lists, hidden: usize, execution: usize) -> [u8; 32]
    requires { execution < 32 }
    ensures last_hidden { suc hidden ≡ lists.entry.parties → result ≡ replicate 32 0 }
    ensures last_open { (suc hidden ≡ lists.entry.parties → ⊥) → (K : Key) (v : View) → ForΩ lists.entry.m lists.entry.parties execution lists.entry.leaves.now lists.entry.work.now K v → result ≡ sha256 (Ωin K v) }
{
    if hidden == lists.parties - 1 {
        return [0u8; 32];
    }
    views::parties::omega_of(lists, execution)
}

// The digests of a kept execution whose seeds and shares stand in the lists. Sums and outputs are lists of fixed size, as there is no heap.
fn evaluate<'a>(
    evaluation: Evaluation<'a>,
    depth: usize,
    execution: usize,
    reply: &[u8],
    kappa: &[u8; 16],
    seed: &[u8; 16],
    leaves: &'a [u8],
) -> Evaluated
    requires execution_bound { execution < 32 }
    requires reply_long { 16 * depth + 32 + 4 * (evaluation.m + 1) ≤ length reply.now }
    requires leaves_long { length leaves.now ≡ 16 * evaluation.parties }
    requires kept { Kept evaluation.modulus.q evaluation.m evaluation.parties depth evaluation.hidden reply.now leaves.now evaluation.work.now }
    ensures { (K : Key) (P : Parts) → KeptIn evaluation.entry.modulus.q evaluation.entry.n evaluation.entry.m evaluation.entry.parties depth evaluation.entry.hidden execution reply.now kappa.now seed.now evaluation.entry.entries.now K P → Evaluates K P execution result.h result.omega result.pi result.psi result.zero }
{
    let Evaluation {
        modulus,
        m,
        parties,
        hidden,
        work,
        ..
    } = evaluation;
    let numbers = 16 * depth + 32;
    let lists = Lists {
        m,
        parties,
        leaves,
        work,
    };
    let h = views::parties::h_of(lists, hidden, execution, &reply[16 * depth..numbers]);
    let omega = omega_at(lists, hidden, execution);
    let given = &reply[numbers..];
    let shares = OpenShares {
        modulus,
        m,
        parties,
        hidden,
        work,
    };
    let mut sums = [0; 128];
    let sums = &mut sums[..m];
    let pi = views::answers::pi_of(shares, execution, given, kappa, sums);
    let shown = bytes4::le32(given, m);
    let mut outs = [0; 32];
    let outs = &mut outs[..parties];
    outputs::outputs(evaluation, execution, seed, shown, sums, outs);
    let psi = views::outputs::psi_of(execution, outs, kappa);
    let zero = views::outputs::sum_is_zero(modulus, outs);
    Evaluated {
        h,
        omega,
        pi,
        psi,
        zero,
    }
}

// A kept execution, from what part 7 holds of it, its seed κ and the verifier's seed L. `execution_inputs` writes what is hashed here: h(e)
// and Ω by the same functions; Γ, Π and Ψ are fed here. `side` reopens by the same call, and has those inputs written.
pub fn kept_execution(
    statement: Statement,
    hidden: usize,
    execution: usize,
    reply: &[u8],
    kappa: &[u8; 16],
    seed: &[u8; 16],
    leaves: &mut [u8],
    work: &mut [u32],
) -> Evaluated
    requires execution_bound { execution < 32 }
    requires hidden_lt_parties { hidden < statement.parties }
    requires reply_long { length reply.now ≡ 16 * statement.depth + 32 + 4 * (statement.m + 1 + last_count statement.m statement.parties hidden) }
    requires given { Given statement.modulus.q statement.m statement.parties statement.depth hidden reply.now }
    requires leaves_long { length leaves.old ≡ 16 * statement.parties }
    requires work_long { 3 * statement.m * statement.parties ≤ length work.old }
    ensures evaluates { (K : Key) (P : Parts) → KeptIn statement.entry.modulus.q statement.entry.n statement.entry.m statement.entry.parties statement.entry.depth hidden execution reply.now kappa.now seed.now statement.entry.entries.now K P → Evaluates K P execution result.h result.omega result.pi result.psi result.zero }
    ensures leaves_len_unchanged { length leaves.new ≡ length leaves.old }
    ensures work_len_unchanged { length work.new ≡ length work.old }
{
    let dealing = Dealing {
        modulus: statement.modulus,
        m: statement.m,
        parties: statement.parties,
        depth: statement.depth,
    };
    prepare::reopen_kept(dealing, hidden, reply, leaves, work);
    let evaluation = Evaluation {
        modulus: statement.modulus,
        n: statement.n,
        m: statement.m,
        parties: statement.parties,
        hidden,
        entries: statement.entries,
        work,
    };
    evaluate(
        evaluation,
        statement.depth,
        execution,
        reply,
        kappa,
        seed,
        leaves,
    )
}
