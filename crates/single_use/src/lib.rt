// Whether each directed edge is surely used at most once, by the undirected table of the faces: each of its runs has one entry, or two that begin at
// different ends. Then pass 4 of document 01 changes nothing, and no directed table is needed. The states of the faces, from `states` on, say
// which of them are exchanged: those with 2.
#![tactic(auto)]

ghost use Rattle.std.specs.Prelude.{◌≡◌, true, false, ◌+◌, ◌/◌, ◌<◌, eqb, length};
ghost use Rattle.rows.specs.Region.{part};
ghost use Rattle.rules.specs.Mesh.{faces_of};
ghost use Rattle.rule_laws.proofs.Once.{Once};
ghost use Rattle.orienting.specs.Reaching.{turned_by};
ghost use Rattle.single_use.specs.Single.{begin_of, entry, BeginAsks, PairAsks, SingleAsks, RunAsks, Opposed};

// Where the step of an entry begins, as its face stands: an exchanged face walks its edges the opposite way.
fn begin(work: &[u32], faces: &[u32], states: usize, id: usize) -> u32
    requires { BeginAsks work.now faces.now states id }
    ensures { result ≡ begin_of work.now faces.now states id }
{
    if work[states + id / 3] == 2 {
        let j = table::after(id);
        return faces[j];
    }
    faces[id]
}

// Whether the entries at the places j and j + 1 of the order begin at the same end.
fn alike(work: &[u32], faces: &[u32], states: usize, at: usize, j: usize) -> bool
    requires { PairAsks work.now faces.now states at j }
    ensures { let w = work.now in
        let xs = faces.now in
        result ≡ eqb (begin_of w xs states (entry w xs at j)) (begin_of w xs states (entry w xs at (j + 1))) }
{
    let place = at + 3 * faces.len() + j;
    let x = begin(work, faces, states, work[place] as usize);
    let y = begin(work, faces, states, work[place + 1] as usize);
    x == y
}

// Whether a directed edge may be used twice along the edge of run r: it has more than two entries, or two that begin at the same end.
fn at_odds(work: &[u32], faces: &[u32], states: usize, at: usize, r: usize) -> bool
    requires { RunAsks work.now faces.now states at r }
    ensures { result ≡ false → Opposed work.now faces.now states at r }
{
    let starts = at + 4 * faces.len();
    let a = work[starts + r] as usize;
    let b = work[starts + r + 1] as usize;
    if b - a < 2 {
        return false;
    }
    if b - a > 2 {
        return true;
    }
    alike(work, faces, states, at, a)
}

// Whether no run is at odds: then each directed edge of the faces, as they stand, is used at most once. The table has m runs.
pub fn single(work: &[u32], faces: &[u32], states: usize, at: usize, m: usize) -> bool
    requires { SingleAsks work.now faces.now states at m }
    ensures { result ≡ true → Once (turned_by (part work.now states (length faces.now / 3)) (faces_of faces.now)) }
{
    for r in 0..m {
        if at_odds(work, faces, states, at, r) {
            return false;
        }
    }
    true
}
