//! Why a preset file is refused.

ghost use Rattle.std.specs.Prelude.{◌≡◌};
ghost use Rattle.preset_csv.specs.Presets as Presets;

use postfix_rules::FormulaCause;
use table_rows::RowFault;
use thiserror::Error;

/// Why a row is refused, in the order in which the causes are tried.
#[derive(Clone, Copy, Debug, PartialEq, Eq, Error)]
#[error("{}", cause_text(*self))]
pub enum PresetCause {
    /// A PRESET row above the first CPU row.
    NoCpu,
    /// A derived type that is not one of those, or a formula or a native with a byte that is not printable.
    BadField,
    /// More than [`MOST_NATIVES`](postfix_rules::MOST_NATIVES) natives.
    OverLimit,
    /// A text in postfix order that is not a formula over the row's natives.
    BadFormula(FormulaCause),
}

/// Why a preset file is refused: its first faulty row, numbered from 1, with the row's first cause, or out of memory.
pub type PresetFault = RowFault<PresetCause>;

/// A cause as it is written on the line that names it.
pub fn cause_text(cause: PresetCause) -> &'static str
    ensures { result.now ≡ Presets.cause_text cause }
{
    match cause {
        PresetCause::NoCpu => "preset before cpu",
        PresetCause::BadField => "bad field",
        PresetCause::OverLimit => "over a limit",
        PresetCause::BadFormula(_) => "broken formula",
    }
}
