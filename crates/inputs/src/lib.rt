// The hash inputs of a transcript (document 01, Pair reader), as the bytes that are compared and shown: where each stands, and those of
// Γ(1) .. Γ(N).
#![tactic(auto)]

ghost use Rattle.std.specs.Prelude.{◌≡◌, ◌+◌, ◌*◌, ◌<◌, length};
ghost use Rattle.lists.specs.Index.{cat};
ghost use Rattle.inputs.specs.Steps.{gamma_in};

use execution::{Lists, commit};

// Γ's inputs of all parties.
pub fn gamma_inputs(lists: Lists, execution: usize, out: &mut [u8])
    requires execution_bound { execution < 32 }
    requires out_long { length out.old ≡ 32 * lists.parties + 4 * lists.m }
    ensures { out.new ≡ cat lists.entry.parties (gamma_in lists.entry.m lists.entry.parties execution lists.entry.leaves.now lists.entry.work.now) }
{
    let m = lists.m;
    let last = lists.parties - 1;
    let (seeds, _) = lists.leaves.as_chunks();
    for (i, seed) in seeds[..last].iter().enumerate() {
        let out = &mut out[32 * i..32 * i + 32];
        commit::gamma_input(execution + 1, i + 1, seed, &[], out);
    }
    let start = 3 * m * last + m;
    let d = &lists.work[start..start + m];
    let seed = &seeds[last];
    commit::gamma_input(execution + 1, lists.parties, seed, d, &mut out[32 * last..]);
}
