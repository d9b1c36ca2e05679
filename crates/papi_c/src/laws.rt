//! Laws of what C programs do with a library, each the contract of a function that does nothing.
ghost use Rattle.papi_c.specs.Histories.{EachHistoryIsOneThread};

/// Whatever a program does with a library that it opened without a stream, each reply and each note is that of the one-thread
/// definition for its calls over the stream that it handed over in all.
pub fn history_law()
    ensures { EachHistoryIsOneThread }
{}
