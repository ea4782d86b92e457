// What the walk goes over.

ghost use Rattle.std.specs.Prelude.{◌≡◌, ◌+◌, ◌*◌, ◌-◌, ◌<◌, ◌≤◌, length};
ghost use Rattle.std.proofs.Props.{props};
ghost use Rattle.transcript.specs.Seen.{seen};
ghost use Rattle.walk.specs.Walk.{Stood, clean_prop};

use execution::Statement;
use transcript::FileParts;

// A key's statement and the parts of a transcript whose form is good, with how many executions there are and how many are opened.
// Nothing compares or prints it.
#[derive(Clone, Copy)]
pub struct Run<'k, 'p> {
    pub statement: Statement<'k>,
    pub executions: usize,
    pub openings: usize,
    pub parts: FileParts<'p>,
    pub ghost executions_most: { executions ≤ 32 },
    pub ghost openings_below: { openings < executions },
    pub ghost p3_long: { length parts.p3.now ≡ 16 * openings + 32 * (executions - openings) + 32 },
    pub ghost p4_long: { length parts.p4.now ≡ 16 },
    pub ghost stood: { Stood statement.modulus.q statement.n statement.m statement.parties executions openings statement.depth statement.entries.now (seen parts) } by { Prim.hlevel (props, clean_prop) },
}
