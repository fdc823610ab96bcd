//! What holds in the world, whatever happens there. These are laws of definitions, and the functions do nothing.
ghost use Rattle.drill.specs.Laws.{AdmitsEachOnce, AdmitsFirst};

/// No made request is admitted twice.
pub fn admits_each_once()
    ensures { AdmitsEachOnce }
{}

/// A made request is admitted at its first delivery exactly where its nonce is live there and its count in the window.
pub fn admits_first()
    ensures { AdmitsFirst }
{}
