// Judges the files `run01`, `run02` and so on up to `run99` with the file `key`, of each its first 65536 bytes, and prints the sheet of the
// shift. The first run that cannot be opened ends it; a missing `key` is an empty one. Lists have the largest size, since there is no heap.
#![tactic(auto)]

ghost use Rattle.std.specs.Prelude.{◌≤◌, ◌≡◌, length, take};
ghost use Rattle.report.specs.Judged.{Judged};

use answer::code::verdict_code;
use loading::load;
use std::rt::Files;

// The judge's numbers, which the sheet shows, for the runs before the first that cannot be opened; returns how many they are.
fn judge_runs<R: Files>(files: &R, key: &[u8], run: &mut [u8], verdicts: &mut [u32]) -> usize
    requires { length verdicts.old ≡ 99 }
    ensures upper_bound { result ≤ 99 }
    ensures prefix_len { (result ≤ length verdicts.new) × (result ≡ length (take result verdicts.new)) }
    ensures judged { Judged key.now result verdicts.new }
{
    for count in 0..99 {
        let name = sheet::name(count + 1);
        let path = str::from_utf8(&name).unwrap();
        let Ok(size) = load(files, path, run) else {
            return count;
        };
        verdicts[count] = verdict_code(badge::badge_judge(key, &run[..size]));
    }
    99
}

fn main(rt: HostRuntime) {
    let mut key = [0u8; 65536];
    let mut run = [0u8; 65536];
    let mut text = [0u8; 4096];
    let mut verdicts = [0u32; 99];
    let size = load(&rt, "key", &mut key).unwrap_or(0);
    let count = judge_runs(&rt, &key[..size], &mut run, &mut verdicts);
    let n = sheet::write(&verdicts[..count], &mut text);
    let _ = rt.write_all(&text[..n]);
}
