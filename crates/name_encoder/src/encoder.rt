//! The native event that a text names.

ghost use Rattle.std.specs.Prelude.{◌≡◌, IfOk};
ghost use Rattle.event_tables.specs.Tables.{shape_of};
ghost use Rattle.name_encoder.specs.Names as Names;

use crate::attribute::given_by;
use crate::fault::NameFault;
use crate::found::find;
use crate::native::native_of;
use crate::parts::parts_of;
use event_tables::Tables;
use papi_base::Native;

/// The native event that a text of the form `[component:::][pmu::]event[:attribute]..` names, or its first fault.
///
/// The form and the modifiers `u`, `k`, `e`, `i` and `c` are those of libpfm4(3) and its manual pages of Intel's
/// processors; the prefix with three colons is PAPI's. Names match without regard to ASCII case.
pub fn encode(t: &Tables, text: &str) -> Result<Native, NameFault>
    ensures names { result ≡ Names.names t.now text.now }
    ensures fits { IfOk result (Names.FitsShape (shape_of t.now)) }
{
    let parts = parts_of(text.as_bytes());
    let Some(found) = find(t, &parts) else {
        return Err(NameFault::NotFound);
    };
    let given = given_by(found.event.masks.as_slice(), parts.attributes)?;
    native_of(&found, &given)
}
