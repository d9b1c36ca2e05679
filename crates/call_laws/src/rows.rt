//! Worked rows over the lab unit, computed by the definitions.
ghost use Rattle.call_laws.specs.AllocationRows.{BlameIsLeast, EarlierMoves, Placing, PresetThatConflicts, ThirtyTwoNatives, TwoOnOneCounter};
ghost use Rattle.call_laws.specs.CountingRows.{Edges, EdgesFromBefore, FirstRun, MasksAndInversion, Privilege, ReadAccumReset, RegisterWraps};
ghost use Rattle.call_laws.specs.ThresholdRows.{NarrowRegister, NarrowRegisterNotes, SecondThreshold, SecondThresholdNotes, ThresholdNotes, ThresholdPassed};
ghost use Rattle.call_laws.specs.MultiplexingRows.{EstimateOfFive, NoStamps, Stamps, TakeTurns};
ghost use Rattle.call_laws.specs.PresetRows.{FormulaValues, PresetsShareNatives, ThreeOfPresets, UserFormula};
ghost use Rattle.call_laws.specs.RefusalRows.{BadStamp, FirstSets, MostSets, Refusals, RefusedMention};
ghost use Rattle.call_laws.specs.ThreadRows.{CodesAndNames, CodesOfTwoThreads, OneStreamFails, RegisteredThreads, ThreeThreads};

/// Which events a set takes, and on which counters.
pub fn allocation_rows()
    ensures two_on_one_counter { TwoOnOneCounter }
    ensures earlier_moves { EarlierMoves }
    ensures blame_is_least { BlameIsLeast }
    ensures placing { Placing }
    ensures preset_that_conflicts { PresetThatConflicts }
    ensures thirty_two_natives { ThirtyTwoNatives }
{}

/// What sets count.
pub fn counting_rows()
    ensures first_run { FirstRun }
    ensures register_wraps { RegisterWraps }
    ensures read_accum_reset { ReadAccumReset }
    ensures privilege { Privilege }
    ensures masks_and_inversion { MasksAndInversion }
    ensures edges { Edges }
    ensures edges_from_before { EdgesFromBefore }
{}

/// Thresholds that are passed, and the registers then.
pub fn threshold_rows()
    ensures threshold_passed { ThresholdPassed }
    ensures threshold_notes { ThresholdNotes }
    ensures second_threshold { SecondThreshold }
    ensures second_threshold_notes { SecondThresholdNotes }
    ensures narrow_register { NarrowRegister }
    ensures narrow_register_notes { NarrowRegisterNotes }
{}

/// Native events that take turns.
pub fn multiplexing_rows()
    ensures take_turns { TakeTurns }
    ensures estimate_of_five { EstimateOfFive }
    ensures stamps { Stamps }
    ensures no_stamps { NoStamps }
{}

/// Values of presets and user events.
pub fn preset_rows()
    ensures presets_share_natives { PresetsShareNatives }
    ensures three_of_presets { ThreeOfPresets }
    ensures user_formula { UserFormula }
    ensures formula_values { FormulaValues }
{}

/// Refusals, and what they leave.
pub fn refusal_rows()
    ensures refusals { Refusals }
    ensures first_sets { FirstSets }
    ensures most_sets { MostSets }
    ensures bad_stamp { BadStamp }
    ensures refused_mention { RefusedMention }
{}

/// Several threads in one script.
pub fn thread_rows()
    ensures codes_and_names { CodesAndNames }
    ensures codes_of_two_threads { CodesOfTwoThreads }
    ensures registered_threads { RegisteredThreads }
    ensures three_threads { ThreeThreads }
    ensures one_stream_fails { OneStreamFails }
{}
