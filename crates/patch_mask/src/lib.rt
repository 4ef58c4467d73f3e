// The patch filter as C gives it: a mask of the limits that count, and five numbers.
#![tactic(auto)]

ghost use Rattle.std.specs.Prelude.{◌≡◌, ◌<◌};
ghost use Rattle.patches.specs.Answers.{limit_of, filter_of};
ghost use Rattle.patch_mask.specs.Mask.{set, held, masked};

use patches::{Filter, Limit};

// A number, if the mask sets the limit with this bit.
fn limit<A: Copy>(limits: u32, bit: u32, x: A) -> Limit<A>
    requires { 0 < bit }
    ensures { limit_of result ≡ held (set limits bit) x }
{
    if limits / bit % 2 == 1 {
        Limit::Limit(x)
    } else {
        Limit::Absent
    }
}

// The filter: limit k counts where bit k of `limits` is 1; the other bits say nothing.
pub fn filter(
    limits: u32,
    min_faces: u64,
    min_area: f64,
    min_aabb_diagonal: f64,
    min_area_fraction: f64,
    keep_largest_n: u64,
) -> Filter
    ensures { filter_of result ≡ masked limits min_faces min_area min_aabb_diagonal min_area_fraction keep_largest_n }
{
    Filter {
        min_faces: limit(limits, 1, min_faces as usize),
        min_area: limit(limits, 2, min_area),
        min_aabb_diagonal: limit(limits, 4, min_aabb_diagonal),
        min_area_fraction: limit(limits, 8, min_area_fraction),
        keep_largest_n: limit(limits, 16, keep_largest_n as usize),
    }
}
