//! Laws of regions: what is read at the lines of a region script, and what its regions count, said by the positions of the threads'
//! streams. Each law is the contract of a function that does nothing.

ghost use Rattle.std.specs.Prelude.{All, FitsSigned};
ghost use Rattle.std.specs.Int.{w64};
ghost use Rattle.region_report.specs.Spans.{reading_values};
ghost use Rattle.call_laws.specs.Exact.{NativesAreExact};
ghost use Rattle.call_laws.specs.Nesting.{ScriptsAreBegun};
ghost use Rattle.call_laws.specs.Readings.{ReadsByPosition};
ghost use Rattle.call_laws.specs.RegionRows.{DerivedRows, WorkedRows};
ghost use Rattle.call_laws.specs.Scripts.{CountsByPosition, ScriptIsLookedUp};
ghost use Rattle.call_laws.specs.Spans.{AllFit, SpansByPosition};

use papi_base::Values;
use region_report::Reading;

/// Each line of a region script that reads or ends a region names the reading at which the innermost open region of its thread began.
pub fn begun_law()
    ensures { ScriptsAreBegun }
{}

/// The script of calls that is read of a region script is the one whose readings the next law says, once its events are looked up.
pub fn script_law()
    ensures { ScriptIsLookedUp }
{}

/// The readings of a region script's calls are the values of the events up to the positions of its lines.
pub fn reading_law()
    ensures { ReadsByPosition }
{}

/// The differences of the readings are the values between the position of a region's begin and that of the line.
pub fn span_law()
    ensures { SpansByPosition }
{}

/// The same of a region script as it is read, with the calls that are read of it and the texts of its events.
pub fn counting_law()
    ensures { CountsByPosition }
{}

/// The value of a native event is the sum of its weights, which is below 2^63.
pub fn exact_law()
    ensures { NativesAreExact }
{}

/// An outer region, and two instances of an inner one; the same over a derived event, with a second thread.
pub fn worked_rows()
    ensures natives { WorkedRows }
    ensures derived { DerivedRows }
{}

// Each of these values, which a program holds, is a signed number of 64 bits. It looks at each of them.
#[tactic(auto, using(std::proofs::lemmas::Grind::common_steps))]
fn values_fit(values: &Values)
    ensures { All (FitsSigned w64) values.now }
{
    for i in 0..values.len() {
        let _value = values.at(i);
    }
}

/// What a program has read is of signed numbers of 64 bits, as [`span_law`] asks of readings. It looks at each value.
#[tactic(auto, using(std::proofs::lemmas::Grind::common_steps))]
pub fn readings_fit(readings: &[Reading])
    ensures { AllFit (reading_values readings.now) }
{
    for reading in readings {
        values_fit(&reading.values);
    }
}
