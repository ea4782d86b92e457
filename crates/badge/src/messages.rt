// The calls whose work lists are their own. The parameters, the place in the output among them, are those of the C calls. Each hands other
// parameters on, so that one over all four would be no shorter. Work lists have the largest size, since there is no heap.

ghost use Rattle.std.specs.Prelude.{◌≡◌, length};
ghost use Rattle.protocol.specs.Key.{key_of};
ghost use Rattle.protocol.specs.Prover.{message1, message3, message5, message7, verdict1, verdict3, verdict5, verdict7, output};
ghost use Rattle.prover.specs.Answers.{answer_of, said};

use refusals::Refusal;

// Message 1 into the output from a place on.
pub fn badge_message_1(
    key: &[u8],
    seeds: &[u8],
    out: &mut [u8],
    place: usize,
) -> Result<usize, Refusal>
    ensures value { said result ≡ answer_of (verdict1 key.now seeds.now (length out.old) place 16384 4128) (message1 (key_of key.now) seeds.now) }
    ensures out_after { out.new ≡ output (verdict1 key.now seeds.now (length out.old) place 16384 4128) (message1 (key_of key.now) seeds.now) place out.old }
{
    let mut entries = [0u32; 4128];
    let mut work = [0u32; 16384];
    message_1::message_1(key, seeds, out, place, &mut entries, &mut work)
}

// Message 3 into the output from a place on.
pub fn badge_message_3(
    key: &[u8],
    seeds: &[u8],
    secret: &[u8],
    e: &[u8],
    kappa: &[u8],
    out: &mut [u8],
    place: usize,
) -> Result<usize, Refusal>
    ensures value { said result ≡ answer_of (verdict3 key.now seeds.now secret.now e.now kappa.now (length out.old) place 16384 4128) (message3 (key_of key.now) seeds.now secret.now e.now kappa.now) }
    ensures out_after { out.new ≡ output (verdict3 key.now seeds.now secret.now e.now kappa.now (length out.old) place 16384 4128) (message3 (key_of key.now) seeds.now secret.now e.now kappa.now) place out.old }
{
    let mut entries = [0u32; 4128];
    let mut work = [0u32; 16384];
    message_3::message_3(
        key,
        seeds,
        secret,
        e,
        kappa,
        out,
        place,
        &mut entries,
        &mut work,
    )
}

// Message 5 into the output from a place on.
pub fn badge_message_5(
    key: &[u8],
    seeds: &[u8],
    secret: &[u8],
    e: &[u8],
    kappa: &[u8],
    seed: &[u8],
    out: &mut [u8],
    place: usize,
) -> Result<usize, Refusal>
    ensures value { said result ≡ answer_of (verdict5 key.now seeds.now secret.now e.now kappa.now seed.now (length out.old) place 16384 4128) (message5 (key_of key.now) seeds.now secret.now e.now kappa.now seed.now) }
    ensures out_after { out.new ≡ output (verdict5 key.now seeds.now secret.now e.now kappa.now seed.now (length out.old) place 16384 4128) (message5 (key_of key.now) seeds.now secret.now e.now kappa.now seed.now) place out.old }
{
    let mut entries = [0u32; 4128];
    let mut work = [0u32; 16384];
    message_5::message_5(
        key,
        seeds,
        secret,
        e,
        kappa,
        seed,
        out,
        place,
        &mut entries,
        &mut work,
    )
}

// Message 7 into the output from a place on.
pub fn badge_message_7(
    key: &[u8],
    seeds: &[u8],
    secret: &[u8],
    e: &[u8],
    kappa: &[u8],
    seed: &[u8],
    hidden: &[u8],
    out: &mut [u8],
    place: usize,
) -> Result<usize, Refusal>
    ensures value { said result ≡ answer_of (verdict7 key.now seeds.now secret.now e.now kappa.now seed.now hidden.now (length out.old) place 16384 4128) (message7 (key_of key.now) seeds.now secret.now e.now kappa.now seed.now hidden.now) }
    ensures out_after { out.new ≡ output (verdict7 key.now seeds.now secret.now e.now kappa.now seed.now hidden.now (length out.old) place 16384 4128) (message7 (key_of key.now) seeds.now secret.now e.now kappa.now seed.now hidden.now) place out.old }
{
    let mut entries = [0u32; 4128];
    let mut work = [0u32; 16384];
    message_7::message_7(
        key,
        seeds,
        secret,
        e,
        kappa,
        seed,
        hidden,
        out,
        place,
        &mut entries,
        &mut work,
    )
}
