// What passes 5 and 6 do, as rows of the work room, without a points room: the corners renamed as pass 5 renames them, the old point of each point that is
// split off, the corners sorted by their points, and a flag for each unused point.
//
// With n faces and P points, pass 5 takes the first 42n + 2 + P entries, as crates/corner_numbers says; the old points stand behind them.
#![tactic(auto)]

ghost use Rattle.split_rows.specs.Rows.{VertexAsks, VertexGives, AllAsks, AllGives, SplitAsks, SplitGives, TakersAsks, TakersGives, FlagsAsks, FlagsGives};

// Where the run of the corners at a vertex ends, and the next number that is free.
#[derive(Clone, Copy, Debug, PartialEq, Eq)]
struct Run {
    end: usize,
    next: usize,
}

// Numbers the groups of the corners at v, and writes v as the old point of each new number.
fn split_vertex(
    work: &mut [u32],
    count: usize,
    m: usize,
    olds: usize,
    v: usize,
    begin: usize,
    next: usize,
) -> Run
    requires { VertexAsks work.old count m olds v begin next }
    ensures { (q : VertexAsks work.old count m olds v begin next) → VertexGives q work.new result }
{
    let sorted = 12 * m + 2 + count;
    let end = corner_numbers::run_end(work, sorted, begin, m, v as u32);
    let free = corner_numbers::number_run(
        work,
        sorted + begin,
        end - begin,
        10 * m + 2 + count,
        13 * m + 2 + count,
        m,
        v,
        next,
    );
    rows::fill(work, olds + (next - count), free - next, v as u32);
    Run { end, next: free }
}

// Numbers the groups of the corners at all points, by rising point. Returns how many points there are then.
fn split_all(work: &mut [u32], count: usize, m: usize, olds: usize) -> usize
    requires { AllAsks work.old count m olds }
    ensures { (q : AllAsks work.old count m olds) → AllGives q work.new result }
{
    let mut begin = 0;
    let mut next = count;
    for v in 0..count {
        let r = split_vertex(work, count, m, olds, v, begin, next);
        begin = r.end;
        next = r.next;
    }
    next
}

// Pass 5 of the n faces at the front of their room, over `count` points: the corners are renamed, and the old points of those that are split off stand
// from `olds` on. Returns how many are split off.
pub fn split_rows(faces: &mut [u32], n: usize, count: usize, work: &mut [u32], olds: usize) -> usize
    requires { SplitAsks faces.old n count work.old olds }
    ensures { SplitGives faces.old n count work.old olds faces.new work.new result }
{
    let m = 3 * n;
    corner_numbers::sort_corners(work, &faces[..m], count);
    let next = split_all(work, count, m, olds);
    split_bowtie_vertices::rename(faces, work, 10 * m + 2 + count, 13 * m + 2 + count, m);
    next - count
}

// Copies the corners of the n faces to the front of the work room, and writes their numbers from `sorted` on, sorted by their points, of which there are
// `count`, those of one point rising. The `count` entries from `bins` on are used, and are 0 then.
pub fn sort_takers(
    work: &mut [u32],
    faces: &[u32],
    n: usize,
    count: usize,
    bins: usize,
    sorted: usize,
)
    requires { TakersAsks work.old faces.now n count bins sorted }
    ensures { TakersGives work.old faces.now n count bins sorted work.new }
{
    let m = 3 * n;
    rows::copy_row(faces, work, m);
    rows::clear(work, bins, count);
    sorting::order(work, m, 0, bins, count, sorted);
}

// Writes from `unused` on a flag for each of the `count` points: 1 where no corner of the n faces is the point, else 0.
pub fn mark_unused(faces: &[u32], n: usize, count: usize, work: &mut [u32], unused: usize)
    requires { FlagsAsks faces.now n count work.old unused }
    ensures { FlagsGives faces.now n count work.old unused work.new }
{
    drop_isolated_vertices::mark(faces, n, count, &mut work[unused..]);
}
