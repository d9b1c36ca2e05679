//! The calls of a script fit its unit.

ghost use Rattle.std.specs.Prelude.{All};
ghost use Rattle.component_table.specs.Catalogs.{shape_of};
ghost use Rattle.postfix_rules.specs.Fitting.{BookFits};
ghost use Rattle.script_runner.specs.Resolving.{IsGoodAsk, lines_of};
ghost use Rattle.session_model.specs.Fitness.{IsShape};

use crate::asking::asked_of;
use component_table::Catalog;
use papi_base::Shape;
use script_lines::Script;

// The counters of a unit, looked at one component after another.
fn shape_fits(shape: &Shape)
    ensures { IsShape shape.now }
{
    for comp in 0..shape.comps() {
        let counters = shape.comp(comp);
        let _count = counters.counters();
    }
}

// The lines of a script, looked up one after another.
#[tactic(auto, using(std::proofs::lemmas::Grind::common_steps))]
fn lines_fit(catalog: &Catalog, script: &Script)
    ensures { All (λ l. IsGoodAsk catalog.now l.asked) (lines_of catalog.now script.now) }
{
    for line in script.lines() {
        let _asked = asked_of(catalog, &line.call);
    }
}

/// Each event that a script's calls name is of the unit or an available preset, and these have counters of the unit alone. It looks at
/// each of them.
pub fn script_fits(catalog: &Catalog, script: &Script)
    ensures counters { IsShape (shape_of catalog.now.tables) }
    ensures presets { BookFits (shape_of catalog.now.tables) catalog.now.book }
    ensures calls { All (λ l. IsGoodAsk catalog.now l.asked) (lines_of catalog.now script.now) }
{
    let shape = catalog.shape();
    shape_fits(&shape);
    let _book = catalog.book();
    lines_fit(catalog, script);
}
