// The random numbers, the envelope, and the coefficients that a sample's kernels share.
use crate::words::{halves, singles, whole};
use dsl::Adsr;
use rng::Rng;
use std::io;
use std::io::{Read, Write};
use vectors::{AnswerFile, Operands, low, of_single, single};

// A number that is drawn, and then the halves of the generator's state.
fn drawn<F: Fn(&mut Rng) -> f32>(x: Operands, draw: F) -> [u64; 3]
    requires { F.IsAlwaysCallable draw }
{
    let mut rng = Rng {
        state: whole(x[0], x[1]),
    };
    let number = draw(&mut rng);
    let [low, high] = halves(rng.state);
    [of_single(number), low, high]
}

// The generator's state, and the word that it draws.
fn next_word(state: u64) -> [u64; 2] {
    let mut rng = Rng { state };
    let word = rng.next_u64();
    [rng.state, word]
}

pub(crate) fn generators<R: Read, W: Write>(file: &mut AnswerFile<R, W>) -> io::Result<()> {
    file.section(|x| rng::splitmix_mix(x[0]))?;
    file.section(|x| next_word(x[0]))?;
    file.section(|x| drawn(x, |r| r.unit()))?;
    file.section(|x| drawn(x, |r| r.bi()))?;
    file.section(|x| drawn(x, |r| r.range(single(x[2]), single(x[3]))))?;
    file.section(|x| rng::node_path(x[0], x[1]))?;
    file.section(|x| rng::node_seed(x[0]))?;
    file.section(|x| {
        let seed = whole(x[0], x[1]);
        halves(rng::rand_seed(seed, low(x[2]), low(x[3]), low(x[4])))
    })
}

pub(crate) fn coefficients<R: Read, W: Write>(file: &mut AnswerFile<R, W>) -> io::Result<()> {
    file.section(|x| {
        let [t, a, d, s, r, punch, rel_start, ..] = singles(x);
        envelope::adsr_env(Adsr { a, d, s, r, punch }, t, rel_start)
    })?;
    file.section(|x| dsp::one_pole(single(x[0]), single(x[1])))?;
    file.section(|x| {
        let f = dsp::follower_coeffs(single(x[0]), single(x[1]), single(x[2]));
        [f.at, f.rt]
    })?;
    file.section(|x| {
        let m = dsp::modal_coeffs(single(x[0]), single(x[1]), single(x[2]), low(x[3]));
        [m.a1, m.a2, m.b0]
    })?;
    file.section(|x| dsp::freeverb_feedback(single(x[0])))
}
