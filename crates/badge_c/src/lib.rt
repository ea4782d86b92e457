// The calls under their names in C, as include/badge.h declares them: what crate `badge` or a crate below answers, as one number. Numbers
// for answers, places beside lists, two lists of a kind and long lists of parameters are that interface.
#![tactic(auto)]

ghost use Rattle.std.specs.Prelude.{◌≡◌, length};
ghost use Rattle.refusals.specs.Number.{number_of};
ghost use Rattle.protocol.specs.Key.{key_of};
ghost use Rattle.protocol.specs.Judge.{judge, judge_lent};
ghost use Rattle.protocol.specs.Prover.{message1, message3, message5, message7, verdict1, verdict3, verdict5, verdict7, output};
ghost use Rattle.protocol.specs.Pair.{says};
ghost use Rattle.prover.specs.Answers.{answer_of};
ghost use Rattle.reading.specs.Answers.{hash1_of, hash2_of, bits_of, errors_of};
ghost use Rattle.answer.specs.Codes.{code_of, finding_code};
ghost use Rattle.answer.specs.Rows.{row_after};
ghost use Rattle.pair.specs.Lent.{lengths};
ghost use Rattle.badge.specs.PairCall.{pair_call};

use answer::code::{code, finding_code, verdict_code};

// Message 1 into the output from a place on.
#[unsafe(no_mangle)]
pub extern "C" fn badge_message_1(key: &[u8], seeds: &[u8], out: &mut [u8], place: u64) -> i64
    ensures value { result ≡ code_of (answer_of (verdict1 key.now seeds.now (length out.old) place 16384 4128) (message1 (key_of key.now) seeds.now)) }
    ensures out_after { out.new ≡ output (verdict1 key.now seeds.now (length out.old) place 16384 4128) (message1 (key_of key.now) seeds.now) place out.old }
{
    let length = badge::messages::badge_message_1(key, seeds, out, place as usize);
    code(length)
}

// Message 3 into the output from a place on.
#[unsafe(no_mangle)]
pub extern "C" fn badge_message_3(
    key: &[u8],
    seeds: &[u8],
    secret: &[u8],
    e: &[u8],
    kappa: &[u8],
    out: &mut [u8],
    place: u64,
) -> i64
    ensures value { result ≡ code_of (answer_of (verdict3 key.now seeds.now secret.now e.now kappa.now (length out.old) place 16384 4128) (message3 (key_of key.now) seeds.now secret.now e.now kappa.now)) }
    ensures out_after { out.new ≡ output (verdict3 key.now seeds.now secret.now e.now kappa.now (length out.old) place 16384 4128) (message3 (key_of key.now) seeds.now secret.now e.now kappa.now) place out.old }
{
    let length = badge::messages::badge_message_3(
        key,
        seeds,
        secret,
        e,
        kappa,
        out,
        place as usize,
    );
    code(length)
}

// Message 5 into the output from a place on.
#[unsafe(no_mangle)]
pub extern "C" fn badge_message_5(
    key: &[u8],
    seeds: &[u8],
    secret: &[u8],
    e: &[u8],
    kappa: &[u8],
    seed: &[u8],
    out: &mut [u8],
    place: u64,
) -> i64
    ensures value { result ≡ code_of (answer_of (verdict5 key.now seeds.now secret.now e.now kappa.now seed.now (length out.old) place 16384 4128) (message5 (key_of key.now) seeds.now secret.now e.now kappa.now seed.now)) }
    ensures out_after { out.new ≡ output (verdict5 key.now seeds.now secret.now e.now kappa.now seed.now (length out.old) place 16384 4128) (message5 (key_of key.now) seeds.now secret.now e.now kappa.now seed.now) place out.old }
{
    let length = badge::messages::badge_message_5(
        key,
        seeds,
        secret,
        e,
        kappa,
        seed,
        out,
        place as usize,
    );
    code(length)
}

// Message 7 into the output from a place on.
#[unsafe(no_mangle)]
pub extern "C" fn badge_message_7(
    key: &[u8],
    seeds: &[u8],
    secret: &[u8],
    e: &[u8],
    kappa: &[u8],
    seed: &[u8],
    hidden: &[u8],
    out: &mut [u8],
    place: u64,
) -> i64
    ensures value { result ≡ code_of (answer_of (verdict7 key.now seeds.now secret.now e.now kappa.now seed.now hidden.now (length out.old) place 16384 4128) (message7 (key_of key.now) seeds.now secret.now e.now kappa.now seed.now hidden.now)) }
    ensures out_after { out.new ≡ output (verdict7 key.now seeds.now secret.now e.now kappa.now seed.now hidden.now (length out.old) place 16384 4128) (message7 (key_of key.now) seeds.now secret.now e.now kappa.now seed.now hidden.now) place out.old }
{
    let length = badge::messages::badge_message_7(
        key,
        seeds,
        secret,
        e,
        kappa,
        seed,
        hidden,
        out,
        place as usize,
    );
    code(length)
}

// The first number of document 01's table that applies to a key and a transcript, or 0: accepted. Both work lists are its own.
#[unsafe(no_mangle)]
pub extern "C" fn badge_judge(key: &[u8], run: &[u8]) -> u32
    ensures { result ≡ number_of (judge key.now run.now) }
{
    verdict_code(badge::badge_judge(key, run))
}

// What must lie behind two transcripts; both work lists are its own.
#[unsafe(no_mangle)]
pub extern "C" fn badge_pair(
    key: &[u8],
    run1: &[u8],
    run2: &[u8],
    hash1: &mut [u8],
    hash2: &mut [u8],
    secret: &mut [u8],
    uv: &mut [u32],
    answer: &mut [u32],
) -> i64
    ensures value { result ≡ finding_code (says (pair_call (length answer.old) key.now (lengths (length hash1.old) (length hash2.old) (length secret.old) (length uv.old) 4128 16384) run1.now run2.now)) }
    ensures hash1_after { hash1.new ≡ hash1_of (pair_call (length answer.old) key.now (lengths (length hash1.old) (length hash2.old) (length secret.old) (length uv.old) 4128 16384) run1.now run2.now) hash1.old }
    ensures hash2_after { hash2.new ≡ hash2_of (pair_call (length answer.old) key.now (lengths (length hash1.old) (length hash2.old) (length secret.old) (length uv.old) 4128 16384) run1.now run2.now) hash2.old }
    ensures secret_after { secret.new ≡ bits_of (pair_call (length answer.old) key.now (lengths (length hash1.old) (length hash2.old) (length secret.old) (length uv.old) 4128 16384) run1.now run2.now) secret.old }
    ensures uv_after { uv.new ≡ errors_of (pair_call (length answer.old) key.now (lengths (length hash1.old) (length hash2.old) (length secret.old) (length uv.old) 4128 16384) run1.now run2.now) uv.old }
    ensures answer_after { answer.new ≡ row_after (says (pair_call (length answer.old) key.now (lengths (length hash1.old) (length hash2.old) (length secret.old) (length uv.old) 4128 16384) run1.now run2.now)) answer.old }
{
    let finding = badge::pairs::badge_pair(key, run1, run2, hash1, hash2, secret, uv, answer);
    finding_code(finding)
}

// Message 1 into the output from a place on.
#[unsafe(no_mangle)]
pub extern "C" fn badge_message_1_lent(
    key: &[u8],
    seeds: &[u8],
    out: &mut [u8],
    place: u64,
    entries: &mut [u32],
    work: &mut [u32],
) -> i64
    ensures value { result ≡ code_of (answer_of (verdict1 key.now seeds.now (length out.old) place (length work.old) (length entries.old)) (message1 (key_of key.now) seeds.now)) }
    ensures out_after { out.new ≡ output (verdict1 key.now seeds.now (length out.old) place (length work.old) (length entries.old)) (message1 (key_of key.now) seeds.now) place out.old }
{
    let length = message_1::message_1(key, seeds, out, place as usize, entries, work);
    code(length)
}

// Message 3 into the output from a place on.
#[unsafe(no_mangle)]
pub extern "C" fn badge_message_3_lent(
    key: &[u8],
    seeds: &[u8],
    secret: &[u8],
    e: &[u8],
    kappa: &[u8],
    out: &mut [u8],
    place: u64,
    entries: &mut [u32],
    work: &mut [u32],
) -> i64
    ensures value { result ≡ code_of (answer_of (verdict3 key.now seeds.now secret.now e.now kappa.now (length out.old) place (length work.old) (length entries.old)) (message3 (key_of key.now) seeds.now secret.now e.now kappa.now)) }
    ensures out_after { out.new ≡ output (verdict3 key.now seeds.now secret.now e.now kappa.now (length out.old) place (length work.old) (length entries.old)) (message3 (key_of key.now) seeds.now secret.now e.now kappa.now) place out.old }
{
    let length = message_3::message_3(
        key,
        seeds,
        secret,
        e,
        kappa,
        out,
        place as usize,
        entries,
        work,
    );
    code(length)
}

// Message 5 into the output from a place on.
#[unsafe(no_mangle)]
pub extern "C" fn badge_message_5_lent(
    key: &[u8],
    seeds: &[u8],
    secret: &[u8],
    e: &[u8],
    kappa: &[u8],
    seed: &[u8],
    out: &mut [u8],
    place: u64,
    entries: &mut [u32],
    work: &mut [u32],
) -> i64
    ensures value { result ≡ code_of (answer_of (verdict5 key.now seeds.now secret.now e.now kappa.now seed.now (length out.old) place (length work.old) (length entries.old)) (message5 (key_of key.now) seeds.now secret.now e.now kappa.now seed.now)) }
    ensures out_after { out.new ≡ output (verdict5 key.now seeds.now secret.now e.now kappa.now seed.now (length out.old) place (length work.old) (length entries.old)) (message5 (key_of key.now) seeds.now secret.now e.now kappa.now seed.now) place out.old }
{
    let length = message_5::message_5(
        key,
        seeds,
        secret,
        e,
        kappa,
        seed,
        out,
        place as usize,
        entries,
        work,
    );
    code(length)
}

// Message 7 into the output from a place on.
#[unsafe(no_mangle)]
pub extern "C" fn badge_message_7_lent(
    key: &[u8],
    seeds: &[u8],
    secret: &[u8],
    e: &[u8],
    kappa: &[u8],
    seed: &[u8],
    hidden: &[u8],
    out: &mut [u8],
    place: u64,
    entries: &mut [u32],
    work: &mut [u32],
) -> i64
    ensures value { result ≡ code_of (answer_of (verdict7 key.now seeds.now secret.now e.now kappa.now seed.now hidden.now (length out.old) place (length work.old) (length entries.old)) (message7 (key_of key.now) seeds.now secret.now e.now kappa.now seed.now hidden.now)) }
    ensures out_after { out.new ≡ output (verdict7 key.now seeds.now secret.now e.now kappa.now seed.now hidden.now (length out.old) place (length work.old) (length entries.old)) (message7 (key_of key.now) seeds.now secret.now e.now kappa.now seed.now hidden.now) place out.old }
{
    let length = message_7::message_7(
        key,
        seeds,
        secret,
        e,
        kappa,
        seed,
        hidden,
        out,
        place as usize,
        entries,
        work,
    );
    code(length)
}

// The first number of document 01's table that applies to a key and a transcript, or 0: accepted.
#[unsafe(no_mangle)]
pub extern "C" fn badge_judge_lent(
    key: &[u8],
    run: &[u8],
    entries: &mut [u32],
    work: &mut [u32],
) -> u32
    ensures { result ≡ number_of (judge_lent key.now (length work.old) (length entries.old) run.now) }
{
    verdict_code(judge::run::judge(key, run, entries, work))
}

// What must lie behind two transcripts, over lent lists.
#[unsafe(no_mangle)]
pub extern "C" fn badge_pair_lent(
    key: &[u8],
    run1: &[u8],
    run2: &[u8],
    hash1: &mut [u8],
    hash2: &mut [u8],
    secret: &mut [u8],
    uv: &mut [u32],
    answer: &mut [u32],
    entries: &mut [u32],
    work: &mut [u32],
) -> i64
    ensures value { result ≡ finding_code (says (pair_call (length answer.old) key.now (lengths (length hash1.old) (length hash2.old) (length secret.old) (length uv.old) (length entries.old) (length work.old)) run1.now run2.now)) }
    ensures hash1_after { hash1.new ≡ hash1_of (pair_call (length answer.old) key.now (lengths (length hash1.old) (length hash2.old) (length secret.old) (length uv.old) (length entries.old) (length work.old)) run1.now run2.now) hash1.old }
    ensures hash2_after { hash2.new ≡ hash2_of (pair_call (length answer.old) key.now (lengths (length hash1.old) (length hash2.old) (length secret.old) (length uv.old) (length entries.old) (length work.old)) run1.now run2.now) hash2.old }
    ensures secret_after { secret.new ≡ bits_of (pair_call (length answer.old) key.now (lengths (length hash1.old) (length hash2.old) (length secret.old) (length uv.old) (length entries.old) (length work.old)) run1.now run2.now) secret.old }
    ensures uv_after { uv.new ≡ errors_of (pair_call (length answer.old) key.now (lengths (length hash1.old) (length hash2.old) (length secret.old) (length uv.old) (length entries.old) (length work.old)) run1.now run2.now) uv.old }
    ensures answer_after { answer.new ≡ row_after (says (pair_call (length answer.old) key.now (lengths (length hash1.old) (length hash2.old) (length secret.old) (length uv.old) (length entries.old) (length work.old)) run1.now run2.now)) answer.old }
{
    let finding = badge::pairs::badge_pair_lent(
        key, run1, run2, hash1, hash2, secret, uv, answer, entries, work,
    );
    finding_code(finding)
}
