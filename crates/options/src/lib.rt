// The options of a repair: a bit for each pass.
#![tactic(auto)]

ghost use Rattle.std.specs.Prelude.{◌≡◌, ◌^◌};
ghost use Rattle.rules.specs.Repair.{bit};
ghost use Rattle.options.specs.Bits.{place_of};

// The passes, in the order of their bits.
#[derive(Clone, Copy, Debug, PartialEq, Eq)]
pub enum Pass {
    DropDegenerate,
    DropDuplicateFaces,
    ResolveNonmanifoldEdges,
    SplitBowtieVertices,
    OrientConsistently,
    DropIsolatedVertices,
}

impl Pass {
    // The number of its bit alone.
    fn mask(self) -> u32
        ensures { result ≡ 2 ^ place_of self }
    {
        match self {
            Pass::DropDegenerate => 1,
            Pass::DropDuplicateFaces => 2,
            Pass::ResolveNonmanifoldEdges => 4,
            Pass::SplitBowtieVertices => 8,
            Pass::OrientConsistently => 16,
            Pass::DropIsolatedVertices => 32,
        }
    }

    // Whether the options have it run.
    pub fn is_on(self, options: u32) -> bool
        ensures { result ≡ bit (place_of self) options }
    {
        options / self.mask() % 2 == 1
    }
}
