// Faces that leave: a pass marks them, and `leave` closes the list up. What the kept rows of `rows` are in the words of the rules stands in proofs/.
#![tactic(auto)]

ghost use Rattle.std.specs.Prelude.{ℕ, Bool};
ghost use Rattle.leaving.specs.Pass.{Flagged, LeaveAsks, LeaveGives};

// What a pass that marks gives back: where its flags begin in the work room, and how much it found at fault.
#[derive(Clone, Copy, Debug, PartialEq, Eq)]
pub struct Marked {
    pub at: usize,
    pub found: usize,
}

// Drops those of the n faces whose flag in `work`, from `marks` on, is 1: the others stand in order at the front, and so do their origins. Returns how many.
pub fn leave(faces: &mut [u32], origins: &mut [u32], work: &[u32], marks: usize, n: usize) -> usize
    requires { LeaveAsks faces.old origins.old work.now marks n }
    ensures { (marked : ℕ → Bool) → Flagged work.now marks n marked
        → LeaveGives marked faces.old origins.old n faces.new origins.new result }
{
    rows::retain_ones(origins, work, marks, n);
    rows::retain(faces, work, marks, n)
}
