// The pitch of each sample of a block, by the controls: it glides, or it stays.
#![tactic(auto)]

ghost use Rattle.std.specs.Prelude.{◌≡◌, ◌+◌, ◌^◌, ◌≤◌, ◌<◌, length};
ghost use Rattle.tree.specs.Comm.{later};
ghost use Rattle.control.specs.Moves.{glided, moved};
ghost use Rattle.unit.specs.Block.{Pitched};
ghost use Rattle.machine.specs.Samples.{tick};
ghost use Rattle.glide.specs.Glide.{risen_by};

// The controls of a sample: the pitch has moved.
pub fn glide_on(c: control::Controls) -> control::Controls
    ensures { result ≡ moved c }
{
    control::Controls {
        pitch: control::glide_step(c.pitch, c.target, c.glide),
        ..c
    }
}

// The controls n samples on, where the pitch stays.
fn rise_by(c: control::Controls, n: u64) -> control::Controls
    requires { c.position + n < 2 ^ 64 }
    ensures { result ≡ risen_by n c }
{
    control::Controls {
        position: c.position + n,
        ..c
    }
}

// A pitch that a sample does not move stays for the whole block: one product, and no chain from sample to sample. This way, the other and
// the choice between them ensure the same, as two ways of one function do. Each asks that the positions do not run out, since the
// controls are C's struct, and hold any position.
fn glide_held(first: control::Controls, pitch: &mut [f32]) -> control::Controls
    requires { (glided first.pitch first.target first.glide ≡ first.pitch) × (first.position + length pitch.old ≤ 2 ^ 62) }
    ensures { (result ≡ later tick (length pitch.old) first) × Pitched (moved first) pitch.new (length pitch.old) }
{
    block::fill_block(pitch, first.pitch * first.bend);
    rise_by(first, pitch.len() as u64)
}

fn glide_moving(first: control::Controls, pitch: &mut [f32]) -> control::Controls
    requires { first.position + length pitch.old ≤ 2 ^ 62 }
    ensures { (result ≡ later tick (length pitch.old) first) × Pitched (moved first) pitch.new (length pitch.old) }
{
    let mut c = first;
    for y in pitch.iter_mut() {
        let m = glide_on(c);
        *y = m.pitch * m.bend;
        c = rise_by(m, 1);
    }
    c
}

// What the sources read for the pitch of each sample; returns the controls after the last.
pub fn glide_block(first: control::Controls, pitch: &mut [f32]) -> control::Controls
    requires { first.position + length pitch.old ≤ 2 ^ 62 }
    ensures { (result ≡ later tick (length pitch.old) first) × Pitched (moved first) pitch.new (length pitch.old) }
{
    let m = glide_on(first);
    if float::same(m.pitch, first.pitch) {
        return glide_held(first, pitch);
    }
    glide_moving(first, pitch)
}
