//! Calls that are refused.
ghost use Rattle.call_laws.specs.Refusing.{CodesStay, NamesStay, RefusedLineStays, SameAccount, SameNotes, SameReplies};

/// Without its refused calls a list leaves the same account, replies and notes.
#[tactic(auto, using(crate::proofs::Refused::same_account, crate::proofs::Refused::same_replies, crate::proofs::Refused::same_notes, crate::proofs::Refused::refused_line_stays))]
pub fn refusal_laws()
    ensures account { SameAccount }
    ensures replies { SameReplies }
    ensures notes { SameNotes }
    ensures line { RefusedLineStays }
{}

/// The codes of mentioned native events keep their meaning, whatever lines follow.
#[tactic(auto, using(crate::proofs::Refused::names_stay, crate::proofs::Refused::codes_stay))]
pub fn code_laws()
    ensures names { NamesStay }
    ensures codes { CodesStay }
{}
