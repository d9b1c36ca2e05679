//! A script's lines, with their events looked up.

ghost use Rattle.std.specs.Prelude.{◌≡◌, [], IfOk, List, OnOk};
ghost use Rattle.component_table.specs.Catalogs.{shape_of};
ghost use Rattle.thread_registry.specs.Plans.{AreGood, IsPlanOf};
ghost use Rattle.thread_registry.specs.Runs.{reply_lines};
ghost use Rattle.script_runner.specs.Resolving.{AreFirstOf, lines_of, mentioned_in, reply_lines_of, setting_of};
ghost use Rattle.session_model.specs.World.{LineTold};

use crate::planning::planned_line;
use component_table::{Catalog, NativeCodes};
use script_lines::Script;
use std::alloc::{AllocError, Global};
use thread_registry::{Plan, PlanLine};

/// The plan of a script: its texts and codes are looked up in the order of the lines, each once.
///
/// The native events that lines mention go to `codes`, which has none yet. If memory runs out, a prefix of them did.
pub fn resolve(
    alloc: Global,
    script: &Script,
    catalog: &Catalog,
    codes: &mut NativeCodes,
) -> Result<Plan, AllocError>
    requires none { codes.old ≡ [] }
    // It is the plan of these lines in the setting of the catalog, and its replies stand beside the script's lines.
    ensures plan { IfOk result
        (λ plan. IsPlanOf (setting_of catalog.now) (lines_of catalog.now script.now) plan) }
    ensures heads { IfOk result
        (λ plan. (told : List LineTold) → reply_lines plan told ≡ reply_lines_of script.now told) }
    ensures good { IfOk result
        (λ plan. AreGood catalog.now.book (shape_of catalog.now.tables) plan) }
    ensures codes { OnOk result (codes.new ≡ mentioned_in (lines_of catalog.now script.now)) }
    ensures begun { AreFirstOf (mentioned_in (lines_of catalog.now script.now)) codes.new }
{
    let mut lines = Vec::with_capacity(alloc, script.lines().len())?;
    for line in script.lines() {
        let planned = planned_line(catalog, &line.call, codes)?;
        lines.push_reserved(PlanLine {
            number: line.line,
            thread: line.thread,
            planned,
        });
    }
    Ok(Plan::new(lines))
}
