//! The group of cpus to which a row belongs.

ghost use Rattle.std.specs.Prelude.{◌≡◌, ◌||◌, ◌&&◌, not, true, false};

/// The group of CPU rows above a row: whether there is one, whether a PRESET row closes it, so that the next CPU row
/// begins another, and whether it holds the asked cpu. Source: papi_events.csv.
#[derive(Clone, Copy)]
pub struct Group {
    pub begun: bool,
    pub closed: bool,
    pub holds: bool,
}

impl Group {
    /// The group above the first row.
    pub fn new() -> Group
        ensures { result ≡ record { begun = false; closed = false; holds = false } }
    {
        Group {
            begun: false,
            closed: false,
            holds: false,
        }
    }

    /// The group below a CPU row, which may be the asked one.
    pub fn with_cpu(self, is_asked: bool) -> Group
        ensures { result ≡ record {
          begun = true;
          closed = false;
          holds = is_asked || (not self.closed && self.holds);
        } }
    {
        Group {
            begun: true,
            closed: false,
            holds: is_asked || (!self.closed && self.holds),
        }
    }

    /// The group below a PRESET row.
    pub fn with_preset(self) -> Group
        ensures { result ≡ record { begun = self.begun; closed = true; holds = self.holds } }
    {
        Group {
            closed: true,
            ..self
        }
    }
}
