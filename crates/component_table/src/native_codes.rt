//! The codes of native events.

ghost use Rattle.std.specs.Prelude.{◌≡◌, ◌<◌, ◌≤◌, [], ◌∷◌, take, length, IfOk, OnErr, OnOk};
ghost use Rattle.component_table.specs.Codes.{code_in};
ghost use Rattle.postfix_rules.specs.Sameness.{joined_by};
ghost use Rattle.postfix_rules.specs.NativeCodes.{native_code, native_named};

use indexmap::IndexSet;
use papi_base::{FIRST_NATIVE_CODE, Native};
use std::alloc::{AllocError, Global};
use std::marker::Model;

/// How many native events may be mentioned: their codes are below 0x80000000, where those of presets begin.
pub const MOST_MENTIONED: u32 = 0x40000000;

/// The native events that were mentioned, in the order of their first mentions, which gives them their codes.
///
/// Contracts see the list of them, of at most [`MOST_MENTIONED`]. Source: PAPI_event_name_to_code(3).
#[derive(Drop)]
pub struct NativeCodes {
    natives: IndexSet<Native>,
}

impl Model for NativeCodes {
    ghost use Rattle.std.specs.Prelude.{◌≤◌, List, length};
    ghost use Rattle.component_table.specs.declared.native_codes.TheConstants.{MOST_MENTIONED};
    ghost use Rattle.papi_base.specs.declared.native.Native.{Native};

    ghost Value = { List Native };

    ghost view = { λ c. c.natives.keys };

    ghost invariant = { λ c. length c.natives.keys ≤ MOST_MENTIONED };
}

impl NativeCodes {
    /// No native event is mentioned yet.
    pub fn new(alloc: Global) -> NativeCodes
        ensures none { result ≡ [] }
    {
        NativeCodes {
            natives: IndexSet::new(alloc),
        }
    }

    /// How many native events are mentioned.
    pub fn count(&self) -> u32
        ensures count { result ≡ length self.now }
        ensures few { length self.now ≤ MOST_MENTIONED }
    {
        self.natives.len() as u32
    }

    /// Mentions a native event, and gives its code: `FIRST_NATIVE_CODE` and the rank of its first mention.
    ///
    /// If memory is refused, it is not mentioned.
    pub fn mention(&mut self, native: Native) -> Result<u32, AllocError>
        requires few { length self.old < MOST_MENTIONED }
        ensures mentioned { OnOk result (self.new ≡ joined_by self.old (native ∷ [])) }
        ensures code { IfOk result (λ code. code ≡ native_code self.new native) }
        ensures unchanged { OnErr result (self.new ≡ self.old) }
    {
        let (rank, _) = self.natives.insert_full(native)?;
        Ok(FIRST_NATIVE_CODE + rank as u32)
    }

    /// The code of a native event, and `None` if it is not mentioned.
    pub fn code_of(&self, native: &Native) -> Option<u32>
        ensures code { result ≡ code_in self.now native.now }
    {
        match self.natives.get_index_of(native) {
            Some(rank) => Some(FIRST_NATIVE_CODE + rank as u32),
            None => None,
        }
    }

    /// The native event of a code, among the first `first` that were mentioned, and `None` if it is not one of them.
    ///
    /// Source: PAPI_event_code_to_name(3).
    pub fn native_of(&self, code: u32, first: u32) -> Option<Native>
        ensures native { result ≡ native_named (take first self.now) code }
    {
        let rank = code.checked_sub(FIRST_NATIVE_CODE)?;
        if rank >= first {
            return None;
        }
        self.natives.get_index(rank as usize).copied()
    }
}
