// Pass 5 of document 01: a vertex whose faces form several fans is split, the first fan keeps it and each other one gets a copy of its point. All
// fans are found at once on the unchanged list; the rows in the work room are those of crates/corner_numbers, 14n + 2 + P entries with n = 3F.
#![tactic(auto)]

ghost use Rattle.split_bowtie_vertices.specs.Splits.{CopiesAsks, CopiesGives, VertexAsks, VertexGives, AllAsks, AllGives, RenameAsks, RenameGives, SplitAsks, SplitGives};

// What pass 5 has done: how many vertices it has split, and how many points there are after it.
#[derive(Clone, Copy, Debug, PartialEq, Eq)]
pub struct Split {
    pub splits: usize,
    pub points: usize,
}

// Where the run of the corners at a vertex ends, and the next number that is free.
#[derive(Clone, Copy, Debug, PartialEq, Eq)]
struct Run {
    end: usize,
    next: usize,
}

// Appends m copies of point v to the first `from` points.
fn copies(points: &mut [f64], v: usize, from: usize, m: usize)
    requires { CopiesAsks points.old v from m }
    ensures { CopiesGives points.old v from m points.new }
{
    for j in 0..m {
        rows::move_row(points, v, from + j);
    }
}

// Splits off every group of corners at v but the first: a number and a copy of v's point for each.
fn split_vertex(
    points: &mut [f64],
    work: &mut [u32],
    count: usize,
    n: usize,
    v: usize,
    begin: usize,
    next: usize,
) -> Run
    requires { VertexAsks points.old work.old count n v begin next }
    ensures { (q : VertexAsks points.old work.old count n v begin next) → VertexGives q points.new work.new result }
{
    let sorted = 12 * n + 2 + count;
    let end = corner_numbers::run_end(work, sorted, begin, n, v as u32);
    let free = corner_numbers::number_run(
        work,
        sorted + begin,
        end - begin,
        10 * n + 2 + count,
        13 * n + 2 + count,
        n,
        v,
        next,
    );
    copies(points, v, next, free - next);
    Run { end, next: free }
}

// Splits the vertices by rising number.
fn split_all(points: &mut [f64], work: &mut [u32], count: usize, n: usize) -> Split
    requires { AllAsks points.old work.old count n }
    ensures { (q : AllAsks points.old work.old count n) → AllGives q points.new work.new result }
{
    let mut begin = 0;
    let mut next = count;
    let mut splits = 0;
    for v in 0..count {
        let r = split_vertex(points, work, count, n, v, begin, next);
        if next < r.next {
            splits += 1;
        }
        begin = r.end;
        next = r.next;
    }
    Split {
        splits,
        points: next,
    }
}

// Gives each of the n corners the number that it takes; one that keeps its number is not stored.
pub fn rename(faces: &mut [u32], work: &[u32], leads: usize, numbers: usize, n: usize)
    requires { RenameAsks faces.old work.now leads numbers n }
    ensures { RenameGives faces.old work.now leads numbers n faces.new }
{
    for id in 0..n {
        let taken = corner_numbers::new_corner(work, leads, numbers, n, id);
        rows::store(faces, id, taken);
    }
}

// Pass 5, over `count` points and n faces at the front of their rooms: the copies are appended to the points.
pub fn split_bowtie_vertices(
    points: &mut [f64],
    count: usize,
    faces: &mut [u32],
    n: usize,
    work: &mut [u32],
) -> Split
    requires { SplitAsks points.old count faces.old n work.old }
    ensures { SplitGives count points.old faces.old n work.old points.new faces.new work.new result }
{
    let m = 3 * n;
    corner_numbers::sort_corners(work, &faces[..m], count);
    let s = split_all(points, work, count, m);
    rename(faces, work, 10 * m + 2 + count, 13 * m + 2 + count, m);
    s
}
