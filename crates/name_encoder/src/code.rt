//! The code of a native event.

ghost use Rattle.std.specs.Prelude.{◌≡◌};
ghost use Rattle.name_encoder.specs.Canonical as Canonical;
ghost use Rattle.name_encoder.specs.Flags as Flags;

use papi_base::Native;

fn flag_bit(on: bool) -> u64
    ensures { result ≡ Flags.flag_bit on }
{
    if on { 1 } else { 0 }
}

/// The encoding of a native event, in the layout of the event select register of Intel's manual, volume 3B.
///
/// USR and OS are both set if the event asks for neither.
#[tactic(auto, unfolding(crate::specs::Canonical::code64))]
pub fn code64(n: &Native) -> u64
    ensures { result ≡ Canonical.code64 n.now }
{
    let both = !(n.mods.user || n.mods.kernel);
    n.select as u64
        + 256 * n.umask as u64
        + (1 << 16) * flag_bit(n.mods.user || both)
        + (1 << 17) * flag_bit(n.mods.kernel || both)
        + (1 << 18) * flag_bit(n.mods.edge)
        + (1 << 20)
        + (1 << 22)
        + (1 << 23) * flag_bit(n.mods.invert)
        + (1 << 24) * n.mods.cmask as u64
}
