// The filters: a kind is a number and, for a peak and the shelves, a gain.
use crate::words::singles;
use biquad::{FilterKind, Response};
use filter_step::Filter;
use vectors::{Operands, low, single};

// The kinds in the order of their declaration. The number is the file's, and is read here only.
fn kind_of(n: u64, gain: f32) -> FilterKind {
    match n {
        0 => FilterKind::Low,
        1 => FilterKind::High,
        2 => FilterKind::Band,
        3 => FilterKind::Notch,
        4 => FilterKind::Peak(gain),
        5 => FilterKind::LowShelf(gain),
        _ => FilterKind::HighShelf(gain),
    }
}

pub(crate) fn coefficients(x: Operands) -> [f32; 5] {
    let r = Response {
        kind: kind_of(x[0], single(x[1])),
        q: single(x[3]),
        sr: low(x[4]),
    };
    let c = biquad::biquad_coeffs(r, single(x[2]));
    [c.b0, c.b1, c.b2, c.a1, c.a2]
}

pub(crate) fn step(words: Operands) -> [f32; 12] {
    let [
        _,
        gain,
        q,
        _,
        cutoff,
        scale,
        prev_f,
        b0,
        b1,
        b2,
        a1,
        a2,
        x1,
        x2,
        y1,
        y2,
        x,
        ..
    ] = singles(words);
    let r = Response {
        kind: kind_of(words[0], gain),
        q,
        sr: low(words[3]),
    };
    let mut s = Filter {
        scale,
        prev_f,
        b0,
        b1,
        b2,
        a1,
        a2,
        x1,
        x2,
        y1,
        y2,
    };
    let y = s.step(r, cutoff, x);
    [
        y, s.scale, s.prev_f, s.b0, s.b1, s.b2, s.a1, s.a2, s.x1, s.x2, s.y1, s.y2,
    ]
}
