//! Domains and the bits of an event set's state.
ghost use Rattle.std.specs.Prelude.{⊤, ◌≡◌, ◌==◌, not, [], ◌∷◌, codes, if◌then◌else◌};
ghost use Rattle.std.specs.Int.RustNames.{bit_or};
ghost use Rattle.papi_base.specs.Weight.{share};

use bitflags::{Flag, Flags, bitflag_items};

/// Whose occurrences count, as bits: USER 1 and KERNEL 2, PAPI_set_domain(3).
#[derive(Clone, Copy)]
pub struct Domain(pub u8);

bitflag_items! {
    impl Domain: u8 {
        const USER = 1;
        const KERNEL = 2;
    }
}

impl Flags for Domain {
    type Bits = u8;

    ghost exact = { ⊤ };

    ghost table = { (codes "USER", 1) ∷ (codes "KERNEL", 2) ∷ [] };

    ghost set_of = { λ d. d.0 };

    fn flags<'a>() -> &'a [Flag<Domain>] {
        Domain::FLAGS
    }

    fn bits(&self) -> u8 {
        self.0
    }

    fn from_bits_retain(bits: u8) -> Domain {
        Domain(bits)
    }
}

/// The bits of an event set's state, PAPI_state(3).
#[derive(Clone, Copy)]
pub struct StateBits(pub u8);

bitflag_items! {
    impl StateBits: u8 {
        const STOPPED = 1;
        const RUNNING = 2;
        const OVERFLOWING = 0x10;
        const MULTIPLEXING = 0x40;
    }
}

impl Flags for StateBits {
    type Bits = u8;

    ghost exact = { ⊤ };

    ghost table = { (codes "STOPPED", 1) ∷ (codes "RUNNING", 2) ∷ (codes "OVERFLOWING", 16) ∷ (codes "MULTIPLEXING", 64) ∷ [] };

    ghost set_of = { λ s. s.0 };

    fn flags<'a>() -> &'a [Flag<StateBits>] {
        StateBits::FLAGS
    }

    fn bits(&self) -> u8 {
        self.0
    }

    fn from_bits_retain(bits: u8) -> StateBits {
        StateBits(bits)
    }
}

/// The state of an event set that runs or not, has thresholds or not, and is multiplexed or not: PAPI_state(3).
pub fn state_of(runs: bool, overflows: bool, multiplexed: bool) -> StateBits
    ensures state { result.0
        ≡ bit_or (bit_or (if runs then 2 else 1) (if overflows then 16 else 0))
        (if multiplexed then 64 else 0) }
{
    let mut bits = if runs {
        StateBits::RUNNING
    } else {
        StateBits::STOPPED
    };
    if overflows {
        bits.insert(StateBits::OVERFLOWING);
    }
    if multiplexed {
        bits.insert(StateBits::MULTIPLEXING);
    }
    bits
}
