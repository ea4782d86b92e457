// A list of numbers, each made from its place.

ghost use Rattle.std.specs.Prelude.{◌≡◌, ℕ, ◌<◌, length, get_or};

// f(0), f(1) .. in the places of a list.
pub fn fill<F: Fn(usize) -> u32>(out: &mut [u32], f: F)
    requires { (i : ℕ) → i < length out.old → F.pre f i }
    ensures long { length out.new ≡ length out.old }
    ensures filled { (i : ℕ) → i < length out.old → F.post f i (get_or out.new i 0) }
{
    for (i, x) in out.iter_mut().enumerate() {
        *x = f(i);
    }
}
