// Writes, for runs handed over as parts of a row, the best face, its place and the second choice. The file stdout says what they must be.
#![tactic(auto)]

ghost use Rattle.std.specs.Prelude.{length, ◌<◌};
ghost use Rattle.rank.specs.Ranks.{RankAsks};

use std::io;

// Ranks a run of entries of the edge from 0 to 1.
fn ranked(rt: &impl Print, points: &[f64], faces: &[u32], run: &[u32]) -> io::Result<()>
    requires rank_asks { RankAsks points.now faces.now run.now }
    requires in_bounds { 1 < length run.now }
{
    let one = rank::best(points, faces, run);
    show::number(rt, one as u64)?;
    show::number(rt, rank::place(run, one) as u64)?;
    show::number(rt, rank::second(points, faces, run, 0, 1, one) as u64)?;
    show::end_line(rt)
}

// Faces 0, 1 and 3 are equal in quality, 2 is better, and 4 has none. Face 1 steps from 1 to 0, face 4 both ways.
fn main(rt: HostRuntime) -> io::Result<()> {
    let points = [
        0.0, 0.0, 0.0, 1.0, 0.0, 0.0, 0.0, 1.0, 0.0, 0.0, -1.0, 0.0, 0.0, 0.0, 1.0, 0.5, 0.875, 0.0,
    ];
    let faces = [0, 1, 2, 1, 0, 3, 0, 1, 5, 0, 1, 4, 0, 1, 0];
    let order = [0, 3, 6, 9, 12, 13, 0, 6, 9, 9, 0, 12, 13];
    ranked(&rt, &points, &faces, &order[..6])?;
    ranked(&rt, &points, &faces, &order[6..9])?;
    ranked(&rt, &points, &faces, &order[9..11])?;
    ranked(&rt, &points, &faces, &order[11..])
}
