// Pass 6 of document 01: unused points leave; order is kept; corners are renumbered.
//
// The work room, of P points:
//
//     0   P   a flag for each point: 1 where it leaves, else 0
//     P   P   the number of each point once the unused ones have left
#![tactic(auto)]

ghost use Rattle.drop_isolated_vertices.specs.Unused.{UseAsks, ClearGives, UseGives, RenumberAsks, RenumberGives, UnusedAsks, UnusedGives};

// Clears the flag of each point that one of the n faces uses.
fn clear_used(faces: &[u32], n: usize, count: usize, work: &mut [u32])
    requires { UseAsks faces.now n count work.old }
    ensures { ClearGives faces.now n count work.old work.new }
{
    for &corner in &faces[..3 * n] {
        work[corner as usize] = 0;
    }
}

// Flags each of the `count` points that none of the n faces uses.
pub fn mark(faces: &[u32], n: usize, count: usize, work: &mut [u32])
    requires { UseAsks faces.now n count work.old }
    ensures { UseGives faces.now n count work.old work.new }
{
    rows::fill(work, 0, count, 1);
    clear_used(faces, n, count, work);
}

// Gives each corner of the n faces the number that stands for it in `work`, from `numbers` on; one that keeps its number is not stored.
pub fn renumber(faces: &mut [u32], n: usize, work: &[u32], numbers: usize)
    requires { RenumberAsks faces.old n work.now numbers }
    ensures { RenumberGives faces.old n work.now numbers faces.new }
{
    let m = 3 * n;
    for k in 0..m {
        let taken = work[numbers + faces[k] as usize];
        rows::store(faces, k, taken);
    }
}

// Pass 6: those of the `count` points that none of the n faces uses leave, the others keep their order, and the corners are renumbered. Returns how
// many points stay.
pub fn drop_isolated_vertices(
    points: &mut [f64],
    count: usize,
    faces: &mut [u32],
    n: usize,
    work: &mut [u32],
) -> usize
    requires { UnusedAsks points.old count faces.old n work.old }
    ensures { UnusedGives points.old count faces.old n work.old points.new faces.new work.new result }
{
    mark(faces, n, count, work);
    rows::number_kept(work, 0, count, count);
    renumber(faces, n, work, count);
    rows::retain(points, work, 0, count)
}
