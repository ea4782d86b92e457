// The finding of two transcripts that fork, from their hash inputs and joined values (document 01, Pair reader).
#![tactic(auto)]

ghost use Rattle.std.specs.Prelude.{◌≡◌, ◌+◌, ◌-◌, ◌≤◌, ◌<◌, length};
ghost use Rattle.walk.specs.Lists.{lists_size};
ghost use Rattle.inputs.specs.Layout.{execution_size};
ghost use Rattle.reading.specs.Keyed.{keyed};
ghost use Rattle.finding.specs.Known.{found_in};
ghost use Rattle.finding.specs.Reads.{Reads};

use compare::{Compared, Side};
use reading::{Finding, Values};

// The first of the four findings that document 01 comes to, in execution e, counted from 0. The four outputs are parameters of their own:
// of a struct that holds them as `&mut` each contract would also say that every list is still the lent one. They are lists that C lent and
// that may be longer.
pub fn find(
    values: Values,
    e: usize,
    one: Side,
    two: Side,
    hash1: &mut [u8],
    hash2: &mut [u8],
    secret: &mut [u8],
    uv: &mut [u32],
) -> Finding
    requires e_bound { e < 32 }
    requires lists1_long { length one.lists.now ≡ lists_size values.key.numbers.executions (values.key.numbers.executions - values.key.numbers.opened) }
    requires lists2_long { length two.lists.now ≡ lists_size values.key.numbers.executions (values.key.numbers.executions - values.key.numbers.opened) }
    requires inputs1_long { length one.inputs.now ≡ execution_size values.key.numbers.m values.key.numbers.parties }
    requires inputs2_long { length two.inputs.now ≡ execution_size values.key.numbers.m values.key.numbers.parties }
    requires hash1_long { 16400 ≤ length hash1.old }
    requires hash2_long { 16400 ≤ length hash2.old }
    requires secret_long { values.key.numbers.m ≤ length secret.old }
    requires uv_long { values.key.numbers.n + values.key.numbers.m ≤ length uv.old }
    ensures { Reads (found_in (keyed values.entry) e one.entry.hidden two.entry.hidden one.entry.lists.now two.entry.lists.now one.entry.inputs.now two.entry.inputs.now values.entry.sums.now) (Ok result) hash1.old hash1.new hash2.old hash2.new secret.old secret.new uv.old uv.new }
{
    let compared = Compared {
        numbers: values.key.numbers,
        one,
        two,
    };
    let Some(spot) = compared.first_difference() else {
        return reading::read_values(values, e, secret, uv);
    };
    hash1[..spot.length].copy_from_slice(spot.input(one));
    hash2[..spot.length].copy_from_slice(spot.input(two));
    Finding::Collision {
        kind: spot.kind,
        execution: e + 1,
        party: spot.party,
        length: spot.length,
    }
}
