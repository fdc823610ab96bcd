//! The command `drill`: the line of a drill that a seed generates.
ghost use Rattle.std.specs.Prelude.{◌≡◌, Err, IfErr};
ghost use Rattle.auth_io.specs.Causes.{Rose};
ghost use Rattle.connection_loop.specs.Account.{link_of};
ghost use Rattle.authd.specs.Drills.{Drills};
ghost use Rattle.authd.specs.Endings.{IsPrintFailure};

use crate::drill_plan::DrillPlan;
use crate::failure::{Failure, Fault};
use crate::printing::print;
use auth_io::Link;
use drill::drill_line;
use std::alloc::Global;

/// Makes a drill of one client and one server, and prints its line.
pub(crate) fn print_drill<L: Link>(
    alloc: Global,
    plan: DrillPlan,
    link: &mut L,
) -> Result<(), Failure>
    ensures drills { let at = link_of L.left L.given L.written L.reads in Drills plan.seed plan.steps (at link.old) (at link.new) result }
    ensures kind { IfErr result IsPrintFailure }
    ensures write_fault { result ≡ Err (Failure.Fault Fault.Write) → Rose (L.write_faults link.old) (L.write_faults link.new) }
{
    let line = drill_line(alloc, plan.seed, plan.steps)?;
    print(link, line.bytes())
}
