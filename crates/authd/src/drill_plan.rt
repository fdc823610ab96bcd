//! Which drill is to be made.
ghost use Rattle.std.specs.Prelude.{◌≤◌};
ghost use Rattle.drill.specs.declared.drilling.TheConstants.{MOST_STEPS};

/// Which drill is to be made: the seed that generates it, and how many steps it has.
#[derive(Clone, Copy)]
pub(crate) struct DrillPlan {
    pub(crate) seed: u64,
    pub(crate) steps: u32,
    ghost few: { steps ≤ MOST_STEPS },
}
