// Drive for one sample.
#![tactic(auto)]

ghost use Rattle.std.specs.Prelude.{◌≡◌};
ghost use Rattle.drive_step.specs.Drive.{driven, drive_by, drive_step, drive_plain, average_of, blocked};
ghost use Rattle.drive.specs.Drive.{drive_of};

use dsl::DriveShape;

#[derive(Clone, Copy)]
pub struct Drive {
    pub x_prev: f32,
    pub f_prev: f32,
    pub dc_x: f32,
    pub dc_y: f32,
}

// Where a shape's curve was asked for last, and what it gave: a sample that stays asks for the same again.
#[derive(Clone, Copy)]
pub struct Held {
    pub shape: DriveShape,
    pub x: f32,
    pub y: f32,
    pub ghost held: { y ≡ drive_of shape x },
}

pub fn amplified(amount: f32, x: f32) -> f32
    ensures { result ≡ driven amount x }
{
    float::max0(amount) * x
}

impl Held {
    // The shape's curve at x.
    fn curve(&mut self, x: f32) -> f32
        ensures curve { result ≡ drive_of self.old.shape x }
        ensures shape { self.new.shape ≡ self.old.shape }
    {
        if !float::same(x, self.x) {
            *self = Held {
                shape: self.shape,
                x,
                y: drive::drive_curve(x, self.shape),
            };
        }
        self.y
    }
}

impl Drive {
    // The curve's average from the last sample to this one, by its antiderivative; at the middle where the two are nearly equal.
    #[tactic(auto, unfolding(crate::specs::Drive::average_of))]
    fn averaged(self, shape: DriveShape, xn: f32, f: f32) -> f32
        ensures { result ≡ average_of shape xn f self.x_prev self.f_prev }
    {
        let d = xn - self.x_prev;
        if float::abs(d) > 1e-5 {
            return (f - self.f_prev) / d;
        }
        drive::drive_curve(0.5 * (xn + self.x_prev), shape)
    }

    // `averaged`, with what the curve gave last. One function of both would take the curve as a closure that changes `held`: what such
    // a closure leaves is longer to say than these lines.
    #[tactic(auto, unfolding(crate::specs::Drive::average_of))]
    fn averaged_after(self, held: &mut Held, xn: f32, f: f32) -> f32
        ensures average { result ≡ average_of held.old.shape xn f self.x_prev self.f_prev }
        ensures shape { held.new.shape ≡ held.old.shape }
    {
        let d = xn - self.x_prev;
        if float::abs(d) > 1e-5 {
            return (f - self.f_prev) / d;
        }
        held.curve(0.5 * (xn + self.x_prev))
    }

    fn dc_blocked(&mut self, y: f32, xn: f32, f: f32) -> f32
        ensures { (result, self.new) ≡ blocked y xn f self.old }
    {
        let yb = y - self.dc_x + 0.9995 * self.dc_y;
        *self = Drive {
            x_prev: xn,
            f_prev: f,
            dc_x: y,
            dc_y: yb,
        };
        yb
    }

    // From the amplified sample and its antiderivative: the average, and a DC blocker.
    #[tactic(auto, unfolding(crate::specs::Drive::drive_by))]
    pub fn step_by(&mut self, shape: DriveShape, xn: f32, f: f32) -> f32
        ensures { (result, self.new) ≡ drive_by shape xn f self.old }
    {
        self.dc_blocked(self.averaged(shape, xn, f), xn, f)
    }

    // `step_by`, with what the curve gave last.
    #[tactic(auto, unfolding(crate::specs::Drive::drive_by))]
    pub fn step_after(&mut self, held: &mut Held, xn: f32, f: f32) -> f32
        ensures step { (result, self.new) ≡ drive_by held.old.shape xn f self.old }
        ensures shape { held.new.shape ≡ held.old.shape }
    {
        self.dc_blocked(self.averaged_after(held, xn, f), xn, f)
    }

    #[tactic(auto, unfolding(crate::specs::Drive::drive_step))]
    pub fn step(&mut self, shape: DriveShape, amount: f32, x: f32) -> f32
        ensures { (result, self.new) ≡ drive_step shape amount self.old x }
    {
        let xn = amplified(amount, x);
        self.step_by(shape, xn, drive::drive_antideriv(xn, shape))
    }
}

#[tactic(auto, unfolding(crate::specs::Drive::drive_plain))]
pub fn drive_plain(shape: DriveShape, amount: f32, x: f32) -> f32
    ensures { result ≡ drive_plain shape amount x }
{
    drive::drive_curve(amplified(amount, x), shape)
}
