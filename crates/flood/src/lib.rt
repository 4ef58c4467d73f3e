// Things joined through runs: a label for each, by rising first member, or the first member of its group.
// Each thing has a parent, itself or one before it, which stands in the row of labels until the labels
// do. Where the parents lead from a thing is its root, and things of one root are of one group.
#![tactic(auto)]

ghost use Rattle.flood.specs.Plan.{plan, FloodAsks};
ghost use Rattle.flood.specs.Parents.{OwnAsks, OwnGives, FindAsks, FindGives, JoinAsks, JoinGives, PointAsks, PointGives};
ghost use Rattle.flood.specs.Uniting.{RunAsks, RunGives, AllAsks, AllGives, UniteGives, NumberAsks, NumberGives};
ghost use Rattle.flood.specs.Answers.{LabelGives, LeadGives};

// Makes each thing its own parent. The loop of `rows::number` again, which takes no 2^32 things.
fn own_all(work: &mut [u32], labels: usize, things: usize)
    requires { OwnAsks work.old labels things }
    ensures { OwnGives work.old labels things work.new }
{
    for i in 0..things {
        work[labels + i] = i as u32;
    }
}

// The root of x. On the way every second thing gets the parent of its parent.
fn find(work: &mut [u32], labels: usize, x: usize) -> usize
    requires { FindAsks work.old labels x }
    ensures { (q : FindAsks work.old labels x) → FindGives q work.new result }
{
    let mut y = x;
    let mut parent = work[labels + y] as usize;
    while parent != y {
        let next = work[labels + parent];
        work[labels + y] = next;
        y = next as usize;
        parent = work[labels + y] as usize;
    }
    y
}

// Gives the things of x's root and those of y's root one root, the lower of the two.
fn join(work: &mut [u32], labels: usize, x: usize, y: usize)
    requires { JoinAsks work.old labels x y }
    ensures { (q : JoinAsks work.old labels x y) → JoinGives q work.new }
{
    let a = find(work, labels, x);
    let b = find(work, labels, y);
    if a < b {
        work[labels + b] = a as u32;
    } else {
        work[labels + a] = b as u32;
    }
}

// Gives the things of a run, those of the order from `from` to before `to`, one root.
fn join_run(work: &mut [u32], labels: usize, order: usize, from: usize, to: usize)
    requires { RunAsks work.old labels order from to }
    ensures { (q : RunAsks work.old labels order from to) → RunGives q work.new }
{
    for i in from + 1..to {
        let x = work[order + (i - 1)] as usize;
        let y = work[order + i] as usize;
        join(work, labels, x, y);
    }
}

// Gives the things of each run one root.
fn join_all(work: &mut [u32], runs: usize, starts: usize, order: usize, labels: usize)
    requires { AllAsks work.old runs starts order labels }
    ensures { (q : AllAsks work.old runs starts order labels) → AllGives q work.new }
{
    for r in 0..runs {
        let from = work[starts + r] as usize;
        let to = work[starts + (r + 1)] as usize;
        join_run(work, labels, order, from, to);
    }
}

// Puts parents into the row of labels, by which two things have one root exactly if they are of one group.
fn unite_all(
    work: &mut [u32],
    things: usize,
    runs: usize,
    starts: usize,
    order: usize,
    labels: usize,
)
    requires { FloodAsks work.old (plan things runs starts order labels) }
    ensures { UniteGives work.old (plan things runs starts order labels) work.new }
{
    own_all(work, labels, things);
    join_all(work, runs, starts, order, labels);
}

// Puts labels in the place of parents, and returns how many there are.
fn number_all(work: &mut [u32], labels: usize, things: usize) -> usize
    requires { NumberAsks work.old labels things }
    ensures { (q : NumberAsks work.old labels things) → NumberGives q work.new result }
{
    let mut count = 0;
    for i in 0..things {
        let parent = work[labels + i] as usize;
        if parent == i {
            work[labels + i] = count as u32;
            count += 1;
        } else {
            work[labels + i] = work[labels + parent];
        }
    }
    count
}

// Puts roots in the place of parents. That of an earlier thing stands there already.
fn point_all(work: &mut [u32], labels: usize, things: usize)
    requires { PointAsks work.old labels things }
    ensures { (q : PointAsks work.old labels things) → PointGives q work.new }
{
    for i in 0..things {
        let earlier = work[labels + i] as usize;
        work[labels + i] = work[labels + earlier];
    }
}

// Writes to the row of labels the number of each thing's group, where things are joined that are in one run
// and groups are ordered by their first member. Returns the number of groups. The run r is what the order
// has from the start r to before the start r + 1.
pub fn label_all(
    work: &mut [u32],
    things: usize,
    runs: usize,
    starts: usize,
    order: usize,
    labels: usize,
) -> usize
    requires { FloodAsks work.old (plan things runs starts order labels) }
    ensures { LabelGives work.old (plan things runs starts order labels) work.new result }
{
    unite_all(work, things, runs, starts, order, labels);
    number_all(work, labels, things)
}

// Writes to the row of labels, of the same groups, the first member of each thing's group.
pub fn lead_all(
    work: &mut [u32],
    things: usize,
    runs: usize,
    starts: usize,
    order: usize,
    labels: usize,
)
    requires { FloodAsks work.old (plan things runs starts order labels) }
    ensures { LeadGives work.old (plan things runs starts order labels) work.new }
{
    unite_all(work, things, runs, starts, order, labels);
    point_all(work, labels, things);
}
