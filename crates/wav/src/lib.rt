// A WAVE file of 16-bit PCM, one channel: its header, and samples as its bytes.
#![tactic(auto)]

ghost use Rattle.std.specs.Prelude.{◌≡◌, ◌++◌, ◌+◌, ◌*◌, ◌≤◌, ◌<◌, ◌^◌, length, drop};
ghost use borrow.Rule.Slice.PartMut.{put_mid};
ghost use Rattle.wav.specs.Wav.{little_endian, header_of, pcm16_of, bytes_of};

// Four bytes of the header, from `at` on.
fn put(h: &mut [u8; 44], at: usize, x: u32)
    requires { at + 4 ≤ 44 }
    ensures { h.new ≡ put_mid at 4 h.old (little_endian 4 x) }
{
    h[at..at + 4].copy_from_slice(&x.to_le_bytes());
}

// All that stands before the first sample of a file of so many samples.
pub fn header(rate: u32, samples: u32) -> [u8; 44]
    requires { (36 + 2 * samples < 2 ^ 32) × (2 * rate < 2 ^ 32) }
    ensures { result ≡ header_of rate samples }
{
    let mut h = *b"RIFF____WAVEfmt \x10\0\0\0\x01\0\x01\0________\x02\0\x10\0data____";
    put(&mut h, 4, 36 + 2 * samples);
    put(&mut h, 24, rate);
    put(&mut h, 28, 2 * rate);
    put(&mut h, 40, 2 * samples);
    h
}

// A sample by its 16 bits. The range of an i16 has one number more below 0 than above it, which no sample gives.
pub fn pcm16(x: f32) -> u16
    ensures { result ≡ pcm16_of x }
{
    let whole = rounding::round(float::clamp(x, -1.0, 1.0) * 32767.0);
    std::num::saturating_f32_to_i16(whole).cast_unsigned()
}

// The samples' bytes, at the start of out: what is read and what is written are two slices of two types.
#[tactic(auto, unfolding(crate::specs::Wav::bytes_of))]
pub fn encode(samples: &[f32], out: &mut [u8])
    requires { 2 * length samples.now ≤ length out.old }
    ensures { out.new ≡ bytes_of samples.now ++ drop (2 * length samples.now) out.old }
{
    for k in 0..samples.len() {
        out[2 * k..2 * k + 2].copy_from_slice(&pcm16(samples[k]).to_le_bytes());
    }
}
