// What is compared: the lists of two transcripts. Nothing compares or prints these two types.

ghost use Rattle.std.specs.Prelude.{◌≡◌, ◌-◌, length};
ghost use Rattle.walk.specs.Lists.{lists_size};
ghost use Rattle.inputs.specs.Layout.{execution_size};

use key::Numbers;

// Of one transcript: the party that it hides in the execution, counted from 0, the lists of the list hashes, and the hash inputs of the
// execution.
#[derive(Clone, Copy)]
pub struct Side<'a> {
    pub hidden: usize,
    pub lists: &'a [u8],
    pub inputs: &'a [u8],
}

// Two transcripts for the numbers of one key.
#[derive(Clone, Copy)]
pub struct Compared<'a> {
    pub numbers: Numbers,
    pub one: Side<'a>,
    pub two: Side<'a>,
    pub ghost lists1_long: { length one.lists.now ≡ lists_size numbers.executions (numbers.executions - numbers.opened) },
    pub ghost lists2_long: { length two.lists.now ≡ lists_size numbers.executions (numbers.executions - numbers.opened) },
    pub ghost inputs1_long: { length one.inputs.now ≡ execution_size numbers.m numbers.parties },
    pub ghost inputs2_long: { length two.inputs.now ≡ execution_size numbers.m numbers.parties },
}
