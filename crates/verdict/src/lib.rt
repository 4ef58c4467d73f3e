// Refusals 7 and 8 of the loop call, from the faces alone: whatever the lent rooms hold, nothing is written.
#![tactic(auto)]

ghost use Rattle.std.specs.Prelude.{◌≡◌, [], ◌∷◌};
ghost use Rattle.rules.specs.Mesh.{faces_of};
ghost use Rattle.rules.specs.Refusal.{decided};
ghost use Rattle.rules.specs.Edges.{no7, no8};
ghost use Rattle.refuse.specs.Accepted.{Faces};
ghost use Rattle.refuse.specs.Verdicts.{check_of};

use refuse::Refusal;

// 7, else 8, else nothing: 7 at the position, among the sorted unique edges, of the first that occurs more than twice; 8 at the lowest vertex at
// fault.
pub fn loop_verdict(count: usize, faces: &[u32]) -> Result<(), Refusal>
    requires { Faces count faces.now }
    ensures { check_of result ≡ decided (no7 count (faces_of faces.now) ∷ no8 count (faces_of faces.now) ∷ []) }
{
    windows::decide(count as u64, faces)
}
