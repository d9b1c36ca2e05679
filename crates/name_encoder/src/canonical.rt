//! The canonical name of a native event.

ghost use Rattle.std.specs.Prelude.{◌≡◌, ◌++◌, ◌∷◌, List, ℕ, IfOk, OnOk, Ok, codes, decimal, map, nat_lt, string_bytes, if◌then◌else◌, []};
ghost use Rattle.event_tables.specs.Kept.{IsTables};
ghost use Rattle.event_tables.specs.Views.{event_text, mask_text};
ghost use Rattle.name_encoder.specs.Canonical as Canonical;
ghost use Rattle.name_encoder.specs.Names as Names;

use crate::fixed::{both_fixed, fixed_if, none_fixed};
use event_tables::{EventRow, FixedMods, Tables, UmaskRow};
use papi_base::{Mods, Native};
use std::alloc::{AllocError, Global};

fn push_if(name: &mut String, on: bool, text: &str) -> Result<(), AllocError>
    ensures { OnOk result (string_bytes name.new
        ≡ string_bytes name.old ++ Canonical.text_if on text.now) }
{
    if on {
        name.push_str(text)?;
    }
    Ok(())
}

// A umask after a colon, if its bit is set.
fn push_mask(name: &mut String, on: bool, mask: &str) -> Result<(), AllocError>
    ensures { OnOk result (string_bytes name.new
        ≡ string_bytes name.old ++ (if on then 58 ∷ mask.now else [])) }
{
    if on {
        name.push_str(":")?;
        name.push_str(mask)?;
    }
    Ok(())
}

// The umasks whose bits are set.
fn push_masks(name: &mut String, bits: u16, masks: &[UmaskRow]) -> Result<(), AllocError>
    ensures { OnOk result (string_bytes name.new
        ≡ string_bytes name.old ++ Canonical.masks_text bits (map mask_text masks.now)) }
{
    let mut left = bits;
    for m in masks {
        push_mask(name, left % 2 == 1, m.name.as_str())?;
        left /= 2;
    }
    Ok(())
}

// The counter mask, if it is not 0.
fn push_cmask(alloc: Global, name: &mut String, cmask: u8) -> Result<(), AllocError>
    ensures { OnOk result (string_bytes name.new
        ≡ string_bytes name.old ++ Canonical.text_if (nat_lt 0 cmask)
        (codes ":c=" ++ decimal cmask)) }
{
    if cmask > 0 {
        let count = format!(in alloc; ":c={cmask}")?;
        name.push_str(count.as_str())?;
    }
    Ok(())
}

// The modifiers that are set.
#[tactic(auto, unfolding(crate::specs::Canonical::mods_text))]
fn push_mods(alloc: Global, name: &mut String, mods: &Mods) -> Result<(), AllocError>
    ensures { OnOk result (string_bytes name.new
        ≡ string_bytes name.old ++ Canonical.mods_text mods.now) }
{
    push_if(name, mods.user, ":u")?;
    push_if(name, mods.kernel, ":k")?;
    push_if(name, mods.edge, ":e")?;
    push_if(name, mods.invert, ":i")?;
    push_cmask(alloc, name, mods.cmask)
}

// What the umasks fix whose bits are set.
fn fixed_by(bits: u16, masks: &[UmaskRow]) -> FixedMods
    ensures { result ≡ Names.fixed_of Names.none_fixed
        (Canonical.flags_in bits (map mask_text masks.now)) (map mask_text masks.now) }
{
    let mut left = bits;
    let mut fixed = none_fixed();
    for m in masks {
        fixed = both_fixed(fixed, fixed_if(left % 2 == 1, m.fixed));
        left /= 2;
    }
    fixed
}

// The modifiers that are not fixed.
fn free_mods(fixed: &FixedMods, mods: &Mods) -> Mods
    ensures { result ≡ Canonical.free_mods fixed.now mods.now }
{
    Mods {
        user: mods.user,
        kernel: mods.kernel,
        edge: mods.edge && !fixed.edge,
        invert: mods.invert && !fixed.invert,
        cmask: if fixed.cmask > 0 { 0 } else { mods.cmask },
    }
}

fn event_name(alloc: Global, pmu: &str, event: &EventRow, n: &Native) -> Result<String, AllocError>
    ensures { IfOk result (λ s.
        string_bytes s ≡ Canonical.event_text pmu.now (event_text event.now) n.now) }
{
    let mut name = String::from_str(alloc, pmu)?;
    name.push_str("::")?;
    name.push_str(event.name.as_str())?;
    push_masks(&mut name, n.masks, event.masks.as_slice())?;
    let fixed = fixed_by(n.masks, event.masks.as_slice());
    push_mods(alloc, &mut name, &free_mods(&fixed, &n.mods))?;
    Ok(name)
}

// The canonical name, which is empty if the native is outside the tables.
#[tactic(auto, unfolding(crate::specs::Canonical::canonical))]
fn canonical_name(alloc: Global, t: &Tables, n: &Native) -> Result<String, AllocError>
    ensures name { IfOk result (λ s. string_bytes s ≡ Canonical.canonical t.now n.now) }
    ensures kept { IsTables t.now }
{
    if n.comp >= t.components() {
        return Ok(String::new(alloc));
    }
    let Some(component) = t.component(n.comp) else {
        return Ok(String::new(alloc));
    };
    match t.event(n.comp, n.event) {
        Some(event) => event_name(alloc, component.pmu.as_str(), event, n),
        None => Ok(String::new(alloc)),
    }
}

/// The canonical name of a native event: `pmu::EVENT` as the tables spell them, its umasks in table order, and those of
/// its modifiers that its umasks do not fix. Of a native that is outside the tables it is empty.
///
/// If some text names the native, its canonical name names it too.
pub fn write_name(alloc: Global, t: &Tables, n: &Native) -> Result<String, AllocError>
    ensures name { IfOk result (λ s. string_bytes s ≡ Canonical.canonical t.now n.now) }
    ensures back { IfOk result
        (λ s. (text : List ℕ) → Names.names t.now text ≡ Ok n.now
        → Names.names t.now (string_bytes s) ≡ Ok n.now) }
{
    canonical_name(alloc, t, n)
}
