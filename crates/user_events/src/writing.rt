//! A table of presets and user events as a preset file.

ghost use Rattle.std.specs.Prelude.{◌≡◌, IfOk};
ghost use Rattle.user_events.specs.Written.{ReadsBack, extended_text};

use crate::extended::Extended;
use preset_csv::{put_entry, write_presets};
use std::alloc::{AllocError, Global};

/// A table of presets and user events as a preset file: the presets as [`write_presets`] writes them, and below them a
/// row for each user event in the order of the ranks.
///
/// What is written reads back, under the table's cpu, as the table. Source: papi_events.csv.
pub fn write_extended(alloc: Global, x: &Extended) -> Result<Vec<u8>, AllocError>
    ensures text { IfOk result (λ v. v.items ≡ extended_text x.now) }
    ensures back { IfOk result (λ v. ReadsBack v.items x.now) }
{
    let mut text = write_presets(alloc, x.presets())?;
    let events = x.events();
    for event in events {
        put_entry(alloc, &mut text, "EVENT", event.name.as_str(), &event.entry)?;
    }
    Ok(text)
}
