// Regions of a lent row made zero, block after block: a block is read first, and written only where something stands in it. A room that is zero already
// stays unwritten, and a page that was never written stays with the system.
#![tactic(auto)]

ghost use Rattle.std.specs.Prelude.{◌≡◌, ℕ, ◌+◌, ◌*◌, ◌≤◌, eqb, not, bit_or, length, take};
ghost use Rattle.rows.specs.Region.{OnlyOf, HoldsOf};
ghost use Rattle.rules.specs.Lists.{all};
ghost use Rattle.wiping.specs.Blocks.{Tells, AnyGives, SomeGives};

use rows::Entry;

// The entries of a block.
const BLOCK: usize = 8192;

// An entry whose bits tell whether it is zero.
pub trait Marked: Entry {
    // The bits of an entry, or of several: a word as wide as one.
    type Bits: Copy;

    // The number that the bits are.
    ghost set: { Self.Bits → ℕ };

    // No bit.
    fn none() -> Self::Bits
        ensures { set result ≡ 0 };

    // The bits of an entry: of zero alone there are none.
    fn bits(self) -> Self::Bits
        ensures { Tells Self.zero self (set result) };

    // The bits of both.
    fn both(x: Self::Bits, y: Self::Bits) -> Self::Bits
        ensures { set result ≡ bit_or (set x) (set y) };

    // Whether there is a bit.
    fn some(x: Self::Bits) -> bool
        ensures { result ≡ not (eqb (set x) 0) };
}

impl Marked for u32 {
    type Bits = u32;

    ghost set = { λ x. x };

    fn none() -> u32 {
        0
    }

    fn bits(self) -> u32 {
        self
    }

    fn both(x: u32, y: u32) -> u32 {
        x | y
    }

    fn some(x: u32) -> bool {
        x != 0
    }
}

impl Marked for f64 {
    type Bits = u64;

    ghost set = { λ x. x };

    fn none() -> u64 {
        0
    }

    // What is no number has 1.
    fn bits(self) -> u64 {
        if self != self {
            return 1;
        }
        f64::to_bits(self)
    }

    fn both(x: u64, y: u64) -> u64 {
        x | y
    }

    fn some(x: u64) -> bool {
        x != 0
    }
}

// The bits that are set in any of the n entries from `from` on, one after the other.
fn any_in_line<T: Marked>(work: &[T], from: usize, n: usize) -> T::Bits
    requires { from + n ≤ length work.now }
    ensures { AnyGives T.blank T.zero work.now from n (T.set result) }
{
    let mut x = T::none();
    for i in 0..n {
        x = T::both(x, work[from + i].bits());
    }
    x
}

// The same of 4n entries, in four places at once: what is read next is on its way while the rest is looked at.
fn any_in_four<T: Marked>(work: &[T], from: usize, n: usize) -> T::Bits
    requires { from + 4 * n ≤ length work.now }
    ensures { AnyGives T.blank T.zero work.now from (4 * n) (T.set result) }
{
    let second = from + n;
    let third = second + n;
    let fourth = third + n;
    let mut x = T::none();
    let mut y = T::none();
    let mut z = T::none();
    let mut u = T::none();
    for i in 0..n {
        x = T::both(x, work[from + i].bits());
        y = T::both(y, work[second + i].bits());
        z = T::both(z, work[third + i].bits());
        u = T::both(u, work[fourth + i].bits());
    }
    T::both(T::both(T::both(x, y), z), u)
}

// Whether any of the n entries from `from` on is not zero.
fn any<T: Marked>(work: &[T], from: usize, n: usize) -> bool
    requires { from + n ≤ length work.now }
    ensures { SomeGives T.blank T.zero work.now from n result }
{
    let quarter = n / 4;
    let taken = 4 * quarter;
    let x = any_in_four(work, from, quarter);
    let y = any_in_line(work, from + taken, n - taken);
    T::some(T::both(x, y))
}

// Whether the first n entries are all 0.
pub fn is_zero(work: &[u32], n: usize) -> bool
    requires { n ≤ length work.now }
    ensures { result ≡ all (eqb 0) (take n work.now) }
{
    for i in (0..n).step_by(BLOCK) {
        if any(work, i, BLOCK.min(n - i)) {
            return false;
        }
    }
    true
}

// Makes each of the n entries from `from` on 0, or +0: they are read first, and written only where one is not.
fn wipe_block<T: Marked>(work: &mut [T], from: usize, n: usize)
    requires { from + n ≤ length work.old }
    ensures only { OnlyOf T.blank from n work.old work.new }
    ensures filled { HoldsOf T.blank from n (λ (i : ℕ). T.zero) work.new }
{
    if any(work, from, n) {
        rows::clear(work, from, n);
    }
}

// Makes each of the n entries from `from` on 0, or +0.
pub fn wipe<T: Marked>(work: &mut [T], from: usize, n: usize)
    requires { from + n ≤ length work.old }
    ensures only { OnlyOf T.blank from n work.old work.new }
    ensures filled { HoldsOf T.blank from n (λ (i : ℕ). T.zero) work.new }
{
    for i in (0..n).step_by(BLOCK) {
        wipe_block(work, from + i, BLOCK.min(n - i));
    }
}
