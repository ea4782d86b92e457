// Judges the files `key` and `run`, of each its first 65536 bytes, and prints one line: `accepted`, or `refused` and the number. A missing
// file is an empty one. Lists have the largest size, since there is no heap.
#![tactic(auto)]

use answer::code::verdict_code;
use loading::load;

fn main(rt: HostRuntime) {
    let mut key = [0u8; 65536];
    let mut run = [0u8; 65536];
    let mut text = [0u8; 19];
    let k = load(&rt, "key", &mut key).unwrap_or(0);
    let r = load(&rt, "run", &mut run).unwrap_or(0);
    let number = verdict_code(badge::badge_judge(&key[..k], &run[..r]));
    let n = line::verdict_line(number, &mut text);
    let _ = rt.write_all(&text[..n]);
}
