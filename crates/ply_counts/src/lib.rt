// The call that tells how many points and faces a binary PLY file has, so that rooms can be lent to the call that reads it.
#![tactic(auto)]

ghost use Rattle.std.specs.Prelude.{◌≡◌};
ghost use Rattle.rules.specs.PlyCountsCall as rule;
ghost use Rattle.ply_counts.specs.Answers.{outcome_of};

use refuse::Refusal;

// The counts of a file in the form.
#[derive(Clone, Copy, Debug, PartialEq, Eq)]
pub struct Counted {
    pub points: usize,
    pub faces: usize,
}

// P and F of a file: refused 13 where it has another form, 2 where it has too many.
pub fn ply_counts(file: &[u8]) -> Result<Counted, Refusal>
    ensures { outcome_of result ≡ rule.ply_counts file.now }
{
    let Some(header) = ply_file::head(file) else {
        return Err(Refusal::BadPly);
    };
    refuse::counts(header.vertices, header.faces)?;
    Ok(Counted {
        points: header.vertices,
        faces: header.faces,
    })
}
