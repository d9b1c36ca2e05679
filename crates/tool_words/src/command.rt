//! What the words ask for.

// tools/make_tools: begin words
use crate::avail::AvailWords;
use crate::chooser::ChooserWords;
use crate::decode::DecodeWords;
use crate::encode::EncodeWords;
use crate::native_avail::NativeAvailWords;
use crate::profil::ProfilWords;
use crate::regions::RegionsWords;
use crate::run::RunWords;
use crate::soak::SoakWords;
// tools/make_tools: end words

/// A tool, with what its words ask for.
#[derive(Drop)]
pub enum Command {
    // tools/make_tools: begin variants
    /// `papi_run`: carries out a script of PAPI calls over recorded occurrences.
    Run(RunWords),
    /// `papi_profil`: shows where in a program an event passed its threshold.
    Profil(ProfilWords),
    /// `papi_regions`: counts events by region of a program.
    Regions(RegionsWords),
    /// `papi_avail`: lists the presets that the program knows, or shows one.
    Avail(AvailWords),
    /// `papi_native_avail`: lists the native events and their umasks, or shows one.
    NativeAvail(NativeAvailWords),
    /// `papi_event_chooser`: lists the events that can still be added to given ones.
    EventChooser(ChooserWords),
    /// `papi_decode`: writes the presets of a processor as a preset file.
    Decode(DecodeWords),
    /// `papi_encode`: prints the codes of native events.
    Encode(EncodeWords),
    /// `papi_soak`: runs a large generated script on four threads.
    Soak(SoakWords),
    // tools/make_tools: end variants
}
