// The first bytes of an input or a file, in front of the caller's list, since there is no heap.
#![tactic(auto)]

ghost use Rattle.std.specs.Prelude.{◌≡◌, ◌≤◌, length, take};
ghost use Rattle.std.specs.Io.{ReadsAtMost};
ghost use Rattle.std.specs.Io.KnownBytes.{Consumes};

use std::io::Read;
use std::rt::Files;
use std::{fs, io};

// The next bytes of an input in front of a list, until it is full, the input ends or a read fails; returns how many they are. There is no
// test for a full list, which a read of no bytes ends: behind such a test clang takes the read for one that never answers 0. The clause on
// the length follows from the bound beside it, for callers that take that part of the list.
pub fn fill<R: Read>(input: &mut R, out: &mut [u8]) -> usize
    ensures in_bounds { (result ≤ length out.new) × (result ≡ length (take result out.new)) }
    ensures bytes { Consumes (R.remaining input.old) (R.remaining input.new) (take result out.new) }
{
    let mut done = 0;
    loop {
        let Ok(n) = input.read(&mut out[done..]) else {
            return done;
        };
        if n == 0 {
            return done;
        }
        done += n;
    }
}

// The file's bytes in front of a list, as many as fit: how many they are, or why the file cannot be opened.
pub fn load<R: Files>(files: &R, path: &str, out: &mut [u8]) -> io::Result<usize>
    ensures { ReadsAtMost result out.new }
{
    let mut file = fs::open(files, path)?;
    Ok(fill(&mut file, out))
}
