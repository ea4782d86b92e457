// The execution in which two accepted transcripts fork, opened in both. One list of inputs is filled for each transcript; why each list is
// a parameter of its own stands at `reader`.

ghost use Rattle.std.specs.Prelude.{◌≡◌, ◌*◌, ◌≤◌, length};
ghost use Rattle.protocol.specs.Transcript.{parts_of};
ghost use Rattle.key.specs.Numbers.{key_with};
ghost use Rattle.inputs.specs.Layout.{execution_size};
ghost use Rattle.side.specs.Side.{Sound};
ghost use Rattle.pair.specs.Forks.{Sides};

use crate::place::Place;
use execution::Sharing;
use key::ReadKey;

// The hash inputs of the execution in both transcripts, and its joined values. Each list is a parameter: of a `&mut` struct of `&mut`
// slices a caller would not know what was written.
pub fn open_both(
    key: ReadKey,
    place: Place,
    run1: &[u8],
    run2: &[u8],
    inputs1: &mut [u8],
    inputs2: &mut [u8],
    sums: &mut [u32],
    work: &mut [u32],
)
    requires sound { Sound key.numbers key.entries.now run1.now place.execution place.hidden1 }
    requires sound_2 { Sound key.numbers key.entries.now run2.now place.execution place.hidden2 }
    requires hidden_differ { place.hidden1 ≡ place.hidden2 → ⊥ }
    requires inputs1_long { length inputs1.old ≡ execution_size key.numbers.m key.numbers.parties }
    requires inputs2_long { length inputs2.old ≡ execution_size key.numbers.m key.numbers.parties }
    requires sums_long { length sums.old ≡ 3 * key.numbers.m }
    requires work_long { 3 * key.numbers.m * key.numbers.parties ≤ length work.old }
    ensures { Sides (key_with key.entry.numbers key.entry.entries.now) (parts_of run1.now) (parts_of run2.now) place.execution inputs1.new inputs2.new sums.new }
{
    let k = key.numbers;
    let sharing = Sharing {
        modulus: k.modulus,
        m: k.m,
        parties: k.parties,
    };
    side::open_side(key, place.execution, place.hidden1, run1, inputs1, work);
    joined::join_open(sharing, place.hidden1, work, sums);
    side::open_side(key, place.execution, place.hidden2, run2, inputs2, work);
    joined::join_party(sharing, place.hidden1, work, sums);
}
