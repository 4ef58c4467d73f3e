// The refusals of the call that writes a mending list, in their order: 1, 2, 3, 4, 5 from the input; of 6 the steps, from lengths alone.
#![tactic(auto)]

ghost use Rattle.std.specs.Prelude.{◌≡◌, ◌+◌, ◌*◌, leb};
ghost use Rattle.rules.specs.Refusal as refusal;
ghost use Rattle.refuse.specs.Verdicts as by;
ghost use Rattle.list_refusal.specs.Checks.{input_list, ReadyTold};

use refuse::Refusal;

// What is refused of the input: 1, 2, 3, 4, 5.
pub fn input_refusal(points: &[f64], faces: &[u32], s: f64, options: u32) -> Result<(), Refusal>
    ensures { by.check_of result ≡ refusal.decided (input_list points.now faces.now s options) }
{
    refuse::sizes(points.len(), faces.len())?;
    refuse::settings(s, options)?;
    refuse::contents(points, faces)
}

// Whether a text room is so long that every list fits: 10P + 118F.
pub fn is_ample(p: usize, f: usize, text: usize) -> bool
    requires { by.Limits p f }
    ensures { result ≡ leb (10 * p + 118 * f) text }
{
    10 * p + 118 * f <= text
}

// What the stated work room leaves behind the corners and the origins: 16P + 60F + 64.
pub fn stated_rest(p: usize, f: usize) -> usize
    requires { by.Limits p f }
    ensures { result ≡ 16 * p + 60 * f + 64 }
{
    16 * p + 60 * f + 64
}

// Whether the parts of a work room are parted as they must be and it is long enough.
pub fn is_ready(p: usize, f: usize, corners: usize, origins: usize, rest: usize) -> bool
    requires { by.Limits p f }
    ensures { ReadyTold p f corners origins rest result }
{
    if corners == 3 * f {
        if origins == f {
            return stated_rest(p, f) <= rest;
        }
    }
    false
}
