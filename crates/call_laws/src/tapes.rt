//! Streams of any bytes: what they give, and the laws of threads and regions over them.
ghost use Rattle.call_laws.specs.Tapes.{AmountsFit, StampsFit, StampsRise};
ghost use Rattle.call_laws.specs.Tapes.{NativesAreExactOverTape, OneGroupOverTape, OneNoteOverTape, PastRises, StreamStays, TurnsCountPerTick};

/// Whatever its bytes are and however it ends, a stream gives amounts from 1 to 255 and stamps that rise.
pub fn stream_law()
    ensures amounts { AmountsFit }
    ensures stamps { StampsRise }
    ensures last { StampsFit }
{}

/// A thread has consumed the first occurrences of its stream. Over a stream of any bytes an event with a threshold has one note for
/// each multiple that its count has reached; what is counted in turns is bounded by their ticks, and one group counts all.
pub fn tape_laws()
    ensures stream { StreamStays }
    ensures rises { PastRises }
    ensures notes { OneNoteOverTape }
    ensures ticks { TurnsCountPerTick }
    ensures one_group { OneGroupOverTape }
{}

/// Over a stream of any bytes the value of a native event between two positions of a region script is the sum of its weights.
pub fn tape_exact_law()
    ensures { NativesAreExactOverTape }
{}
