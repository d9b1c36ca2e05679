//! What `papi_run` replies and tells, by each thread's own calls; and what follows of each call's contract.
ghost use Rattle.papi_tools.specs.Causes.{CausesAreShown, StatusIsOwn};
ghost use Rattle.papi_tools.specs.OwnReplies.{AreOverUnit, NotesAreOwn, RepliesAreOwn, RunsAreOwn, ScriptsAreKept};
ghost use Rattle.papi_tools.specs.RegionTotals.{TotalsAreSums};

use component_table::Catalog;
use script_lines::Script;
use script_runner::script_fits;

/// The reply line of each call that a thread of a run makes is the one after its own calls before it, and each thread's notes are the
/// thresholds that its own calls pass. So the laws of `call_laws` over any list of calls say what a run's values, conflicts and notes
/// are. The lines `threads`, `code` and `name` are no calls of a thread. A script that is read keeps to its limits, so all of this holds of
/// each verdict of `papi_run`, with no premise on its lines.
pub fn run_laws()
    ensures replies { RepliesAreOwn }
    ensures notes { NotesAreOwn }
    ensures kept { ScriptsAreKept }
    ensures runs { RunsAreOwn }
{}

/// The events that a script's calls name are of the unit of the catalog, as the laws of conflicts ask. It looks at each of them.
pub fn unit_law(catalog: &Catalog, script: &Script)
    ensures { AreOverUnit catalog.now script.now }
{
    script_fits(catalog, script);
}

/// How the status of a call has come about: a status of each kind has its cause, and if nothing failed, all of it is said.
pub fn causes_law()
    ensures { CausesAreShown }
{}

/// If nothing is to be said on standard error, memory sufficed and no write failed, the status is the tool's own, 0 or 1; and it is
/// only if nothing is.
pub fn status_law()
    ensures { StatusIsOwn }
{}

/// The total of a region is the sum of what the lines that end it show, wrapped to signed 64 bits; it is the sum as it is if that has 64
/// bits.
pub fn totals_law()
    ensures { TotalsAreSums }
{}
