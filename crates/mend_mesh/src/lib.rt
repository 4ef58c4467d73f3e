// One mesh of a pack, mended or refused by the repair in its parts of the rooms, behind the meshes before it.
#![tactic(auto)]

ghost use Rattle.std.specs.Prelude.{◌≡◌, ◌∷◌, [], ◌≤◌, ◌*◌, ◌/◌, length, take};
ghost use Rattle.rows.specs.Region.{part};
ghost use Rattle.rules.specs.PanelCall as rule;
ghost use Rattle.mend_mesh.specs.Meshes.{OneAsks, OneGives, NextAsks, NextGives};

// How many entries a mesh contributes to the rooms of points, faces, reports and origins.
#[derive(Clone, Copy, Debug, PartialEq, Eq)]
pub struct Share {
    pub points: usize,
    pub faces: usize,
    pub counts: usize,
    pub origins: usize,
}

// Where the next mesh begins: in the points and faces that are given, and in those four rooms.
#[derive(Clone, Copy, Debug, PartialEq, Eq)]
pub struct At {
    pub points: usize,
    pub faces: usize,
    pub mended: usize,
    pub triples: usize,
    pub counts: usize,
    pub origins: usize,
}

// The four entries of a mesh.
fn put_four(four: &mut [u32], number: u32, place: u32, points: u32, faces: u32)
    requires { 4 ≤ length four.old }
    ensures { take 4 four.new ≡ number ∷ place ∷ points ∷ faces ∷ [] }
{
    four[0] = number;
    four[1] = place;
    four[2] = points;
    four[3] = faces;
}

// One mesh, mended or refused in its parts of the rooms, and its four entries.
fn mend_one(
    points: &[f64],
    faces: &[u32],
    s: f64,
    options: u32,
    out_points: &mut [f64],
    out_faces: &mut [u32],
    report: &mut [u32],
    origins: &mut [u32],
    four: &mut [u32],
    work: &mut [u32],
) -> Share
    requires { OneAsks (length points.now / 3) (length faces.now / 3) out_points.old out_faces.old report.old origins.old four.old work.old }
    ensures { OneGives (rule.one_call s options points.now faces.now) (length points.now / 3) (length faces.now / 3)
        work.old out_points.new out_faces.new report.new origins.new four.new work.new result }
{
    match repair::repair(
        points, faces, s, options, out_points, out_faces, report, origins, work,
    ) {
        Ok(mended) => {
            put_four(
                four,
                0,
                0,
                (mended.points / 3) as u32,
                (mended.faces / 3) as u32,
            );
            Share {
                points: mended.points,
                faces: mended.faces,
                counts: rules::COUNTS,
                origins: mended.origins,
            }
        }
        Err(refusal) => {
            put_four(four, refusal.number(), refusal.place() as u32, 0, 0);
            Share {
                points: 0,
                faces: 0,
                counts: 0,
                origins: 0,
            }
        }
    }
}

// Mesh k, of p points and f faces: its parts of all lists are lent, and the next mesh begins where it ends.
pub fn mend_next(
    points: &[f64],
    faces: &[u32],
    p: usize,
    f: usize,
    s: f64,
    options: u32,
    out_points: &mut [f64],
    out_faces: &mut [u32],
    report: &mut [u32],
    origins: &mut [u32],
    meshes: &mut [u32],
    work: &mut [u32],
    k: usize,
    at: At,
) -> At
    requires { NextAsks points.now faces.now p f out_points.old out_faces.old report.old origins.old meshes.old work.old k at }
    ensures { NextGives (rule.one_call s options (part points.now at.points (3 * p)) (part faces.now at.faces (3 * f))) p f k at
        out_points.old out_faces.old report.old origins.old meshes.old work.old
        out_points.new out_faces.new report.new origins.new meshes.new work.new result }
{
    let a = at.points;
    let a_end = a + 3 * p;
    let b = at.faces;
    let b_end = b + 3 * f;
    let c = at.mended;
    let c_end = c + 3 * (p + 3 * f);
    let d = at.triples;
    let d_end = d + 3 * f;
    let e = at.counts;
    let e_end = e + rules::COUNTS;
    let g = at.origins;
    let g_end = g + f;
    let m = 4 * k;
    let m_end = m + 4;
    let share = mend_one(
        &points[a..a_end],
        &faces[b..b_end],
        s,
        options,
        &mut out_points[c..c_end],
        &mut out_faces[d..d_end],
        &mut report[e..e_end],
        &mut origins[g..g_end],
        &mut meshes[m..m_end],
        work,
    );
    At {
        points: a_end,
        faces: b_end,
        mended: c + share.points,
        triples: d + share.faces,
        counts: e + share.counts,
        origins: g + share.origins,
    }
}
