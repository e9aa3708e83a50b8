//! What a variable's scope says.
ghost use Rattle.std.specs.Prelude.{◌≡◌};
ghost use Rattle.dp_tree.specs.Step.{is_local_of};

use crate::VarScope;

impl VarScope {
    /// It is the body of the region with this number.
    #[inline(always)]
    pub fn is_local_of(self, region: u32) -> bool
        ensures { result ≡ is_local_of region self }
    {
        match self {
            VarScope::Body(of) => of == region,
            VarScope::Global | VarScope::Outer => false,
        }
    }
}
