// The values that change over time.
use crate::words::{adsr, choice, halves, length, singles, whole};
use dsl::{Curve, EnvMod, Lfo, Shape, Slide};
use rand_value::Rand;
use rng::Rng;
use std::io;
use std::io::{Read, Write};
use vectors::{AnswerFile, Operands, of_single, single};

fn slide(x: Operands) -> f32 {
    let [_, from, to, secs, srf, ..] = singles(x);
    let v = Slide {
        from,
        to,
        secs,
        curve: Curve::from(choice(x[0])),
    };
    value::slide(v, srf, whole(x[5], x[6]))
}

fn lfo(x: Operands) -> f32 {
    let [_, rate, depth, center, srf, ..] = singles(x);
    let v = Lfo {
        shape: Shape::from(choice(x[0])),
        rate,
        depth,
        center,
    };
    value::lfo(v, srf, whole(x[5], x[6]))
}

fn env_mod(x: Operands) -> f32 {
    let [_, _, _, _, _, from, to, srf, rel_start, ..] = singles(x);
    let v = EnvMod {
        env: adsr(x),
        from,
        to,
    };
    value::env_mod(v, srf, rel_start, whole(x[9], x[10]))
}

fn rand_next(x: Operands) -> [u64; 5] {
    let [inc, from, to, _, _, prev, next, phase, ..] = singles(x);
    let mut s = Rand {
        rng: Rng {
            state: whole(x[3], x[4]),
        },
        prev,
        next,
        phase,
    };
    s.advance(inc, from, to);
    let [low, high] = halves(s.rng.state);
    [
        low,
        high,
        of_single(s.prev),
        of_single(s.next),
        of_single(s.phase),
    ]
}

// The generator has no part in what comes out.
fn rand_out(x: Operands) -> f32 {
    let [prev, next, phase, ..] = singles(x);
    let s = Rand {
        rng: Rng { state: 0 },
        prev,
        next,
        phase,
    };
    s.out()
}

pub(crate) fn values<R: Read, W: Write>(file: &mut AnswerFile<R, W>) -> io::Result<()> {
    file.section(slide)?;
    file.section(lfo)?;
    file.section(|x| value::lfo_phase(single(x[0]), single(x[1]), whole(x[2], x[3])))?;
    file.section(|x| {
        value::arp_index(single(x[0]), single(x[1]), whole(x[2], x[3]), length(x[4]))
    })?;
    file.section(|x| value::release_start(whole(x[0], x[1]), single(x[2]), single(x[3])))?;
    file.section(env_mod)?;
    file.section(|x| rand_value::rand_increment(single(x[0]), single(x[1])))?;
    file.section(rand_out)?;
    file.section(rand_next)
}
