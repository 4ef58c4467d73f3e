// Writes what each function of `flood` makes of small tables of runs. The file stdout says what it must be.
#![tactic(auto)]

ghost use Rattle.flood.specs.Plan.{plan, FloodAsks};

use std::io;

// Writes the number of groups, and the row with the labels.
fn label(
    rt: &impl Print,
    work: &mut [u32],
    things: usize,
    runs: usize,
    starts: usize,
    order: usize,
    labels: usize,
) -> io::Result<()>
    requires { FloodAsks work.old (plan things runs starts order labels) }
{
    show::number(
        rt,
        flood::label_all(work, things, runs, starts, order, labels) as u64,
    )?;
    show::row(rt, work, work.len())
}

// Writes the row with the first members.
fn lead(
    rt: &impl Print,
    work: &mut [u32],
    things: usize,
    runs: usize,
    starts: usize,
    order: usize,
    labels: usize,
) -> io::Result<()>
    requires { FloodAsks work.old (plan things runs starts order labels) }
{
    flood::lead_all(work, things, runs, starts, order, labels);
    show::row(rt, work, work.len())
}

// Six things in the runs 4 2, 5 0, none, 2 1 1 and 3.
fn some() -> [u32; 23]
    ensures { FloodAsks result (plan 6 5 1 7 16) }
{
    [
        99, 0, 2, 4, 4, 7, 8, 4, 2, 5, 0, 2, 1, 1, 3, 99, 77, 77, 77, 77, 77, 77, 99,
    ]
}

// Eight things in a chain from the last to the first: the runs 7 6, 6 5, and so on.
fn chain() -> [u32; 30]
    ensures { FloodAsks result (plan 8 7 0 8 22) }
{
    [
        0, 2, 4, 6, 8, 10, 12, 14, 7, 6, 6, 5, 5, 4, 4, 3, 3, 2, 2, 1, 1, 0, 1, 1, 1, 1, 1, 1, 1, 1,
    ]
}

// Five things, the last four of them in one run, each twice.
fn one() -> [u32; 15]
    ensures { FloodAsks result (plan 5 1 0 2 10) }
{
    [0, 8, 4, 3, 2, 1, 1, 2, 3, 4, 9, 9, 9, 9, 9]
}

// Three things and no run.
fn apart() -> [u32; 4]
    ensures { FloodAsks result (plan 3 0 0 1 1) }
{
    [0, 5, 5, 5]
}

// No thing, and a run of none.
fn nothing() -> [u32; 2]
    ensures { FloodAsks result (plan 0 1 0 2 2) }
{
    [0, 0]
}

// The labels of each table.
fn labels(rt: &impl Print) -> io::Result<()> {
    let mut a = some();
    label(rt, &mut a, 6, 5, 1, 7, 16)?;
    let mut b = chain();
    label(rt, &mut b, 8, 7, 0, 8, 22)?;
    let mut c = one();
    label(rt, &mut c, 5, 1, 0, 2, 10)?;
    let mut d = apart();
    label(rt, &mut d, 3, 0, 0, 1, 1)?;
    let mut e = nothing();
    label(rt, &mut e, 0, 1, 0, 2, 2)
}

// The first members of each table.
fn leaders(rt: &impl Print) -> io::Result<()> {
    let mut a = some();
    lead(rt, &mut a, 6, 5, 1, 7, 16)?;
    let mut b = chain();
    lead(rt, &mut b, 8, 7, 0, 8, 22)?;
    let mut c = one();
    lead(rt, &mut c, 5, 1, 0, 2, 10)?;
    let mut d = apart();
    lead(rt, &mut d, 3, 0, 0, 1, 1)?;
    let mut e = nothing();
    lead(rt, &mut e, 0, 1, 0, 2, 2)
}

fn main(rt: HostRuntime) -> io::Result<()> {
    labels(&rt)?;
    leaders(&rt)
}
