// Orientation, the first half of pass 4 of document 01, in linear time. Across an edge of at most two entries stands at most one other face, which is
// noted beforehand. Another edge is gone through in full only when it is first crossed: then all its users are visited, none of them changes again,
// and for each way across it one number tells which users disagree: 0 for none, 1 + i for face i alone, n + 1 for several.
//
// The work room, for n faces and P points; its first 3 + 29n + 1 + P entries are used:
//
//     0             1       how many faces are on the stack
//     1             1       how many were exchanged
//     2             1       whether the present component is marked
//     3             n       the state of each face: 0 unvisited, 1 visited as it was, 2 visited and exchanged
//     3 + n         n       the stack, its top last
//     3 + 2n        9n      of each edge whether it was crossed, and who disagrees with a step along it, either way, see `crossing`
//     3 + 11n       3n      of each entry which face is across, see `crossing`
//     3 + 14n       15n + 1 + P     the undirected table, see `table`
#![tactic(auto)]

ghost use Rattle.std.specs.Prelude.{◌≡◌, true};
ghost use Rattle.rule_laws.proofs.Once.{Once};
ghost use Rattle.leaving.specs.Pass.{standing, FacesStand};
ghost use Rattle.orient_consistently.specs.Walked.{taken, LayAsks, LayGives, PopAsks, PopGives, EmptyAsks, EmptyGives, StartAsks, StartGives, BeginAsks, BeginGives, AllAsks, AllGives, TurnAsks, TurnGives, OrientGives};

// How many faces were exchanged, and how many components are at odds.
#[derive(Clone, Copy, Debug, PartialEq, Eq)]
pub struct Turned {
    pub reoriented: usize,
    pub components: usize,
}

// Makes ready for the walk, when the table stands with m runs: the rows before it are cleared, and it is noted which face is across.
fn lay(work: &mut [u32], faces: &[u32], n: usize, m: usize)
    requires { LayAsks work.old faces.now n m }
    ensures { LayGives work.old faces.now n work.new }
{
    rows::clear(work, 0, 3 + 14 * n);
    crossing::mate_all(work, faces, n, m);
}

// Takes a face off the stack, which crosses its edges.
fn pop(work: &mut [u32], faces: &[u32], n: usize)
    requires { PopAsks work.old faces.now n }
    ensures { PopGives work.old faces.now n work.new }
{
    let top = work[0] as usize - 1;
    work[0] = top as u32;
    let j = work[3 + n + top] as usize;
    crossing::cross_face(work, faces, n, j);
}

// Takes face after face off the stack until it is empty; n are enough, as each is pushed only once.
fn empty_stack(work: &mut [u32], faces: &[u32], n: usize)
    requires { EmptyAsks work.old faces.now n }
    ensures { EmptyGives work.old faces.now n work.new }
{
    for _ in 0..n {
        if work[0] == 0 {
            return;
        }
        pop(work, faces, n);
    }
}

// Starts a component at face i.
fn start(work: &mut [u32], n: usize, i: usize)
    requires { StartAsks work.old n i }
    ensures { StartGives work.old n i work.new }
{
    work[3 + n] = i as u32;
    work[0] = 1;
    work[2] = 0;
    work[3 + i] = 1;
}

// Walks the component of face i, if that is unvisited, and counts it if it is marked.
fn begin(work: &mut [u32], faces: &[u32], n: usize, i: usize, marks: usize) -> usize
    requires { BeginAsks work.old faces.now n i marks }
    ensures { BeginGives work.old faces.now n i marks work.new result }
{
    if work[3 + i] != 0 {
        return marks;
    }
    start(work, n, i);
    empty_stack(work, faces, n);
    if work[2] == 0 {
        return marks;
    }
    marks + 1
}

// Walks all components, starts by rising index, and returns how many are marked.
fn walk_all(work: &mut [u32], faces: &[u32], n: usize) -> usize
    requires { AllAsks work.old faces.now n }
    ensures { AllGives work.old faces.now n work.new result }
{
    let mut marks = 0;
    for i in 0..n {
        marks = begin(work, faces, n, i, marks);
    }
    marks
}

// Exchanges corners 1 and 2 of each face whose state is 2.
fn turn_all(faces: &mut [u32], work: &[u32], n: usize)
    requires { TurnAsks faces.old work.now n }
    ensures { TurnGives faces.old work.now n faces.new }
{
    for i in 0..n {
        if work[3 + i] == 2 {
            faces.swap(3 * i + 1, 3 * i + 2);
        }
    }
}

// What was turned, and whether each directed edge is surely used at most once then.
#[derive(Clone, Copy, Debug, PartialEq, Eq)]
pub struct Settled {
    pub turned: Turned,
    pub single: bool,
}

// Orients the n faces at the front of their room, of `count` points, and says whether each directed edge is surely used at most once then. Where it
// is before, nothing is at odds, and no walk is needed.
pub fn settle(faces: &mut [u32], n: usize, count: usize, work: &mut [u32]) -> Settled
    requires { FacesStand (taken count n) count faces.old n work.old }
    ensures orient_gives { OrientGives count faces.old n work.old faces.new work.new result.turned.reoriented result.turned.components }
    ensures once { result.single ≡ true → Once (standing faces.new n) }
{
    let at = 3 + 14 * n;
    rows::clear(work, 3, n);
    let m = table::table(work, &faces[..3 * n], count, false, at);
    if single_use::single(work, &faces[..3 * n], 3, at, m) {
        return Settled {
            turned: Turned {
                reoriented: 0,
                components: 0,
            },
            single: true,
        };
    }
    lay(work, &faces[..3 * n], n, m);
    let components = walk_all(work, &faces[..3 * n], n);
    let single = single_use::single(work, &faces[..3 * n], 3, at, m);
    turn_all(faces, work, n);
    Settled {
        turned: Turned {
            reoriented: work[1] as usize,
            components,
        },
        single,
    }
}

// Orients the n faces at the front of their room, of `count` points: each face agrees with the one from which it was reached. Returns how many
// faces were exchanged, and how many components have faces that disagree.
pub fn orient_consistently(faces: &mut [u32], n: usize, count: usize, work: &mut [u32]) -> Turned
    requires { FacesStand (taken count n) count faces.old n work.old }
    ensures { OrientGives count faces.old n work.old faces.new work.new result.reoriented result.components }
{
    settle(faces, n, count, work).turned
}
