//! Books of presets.
use crate::Derived;
use std::marker::Model;

/// Under each row of the preset table what is derived there, if the preset is available.
#[derive(Drop)]
pub struct PresetBook {
    rows: Vec<Option<Derived>>,
}

impl Model for PresetBook {
    ghost use Rattle.postfix_rules.specs.Presets.{Book};

    ghost Value = { Book };

    ghost view = { λ b. b.rows.items };
}

impl PresetBook {
    ghost use Rattle.std.specs.Prelude.{◌≡◌, IfSome, length};
    ghost use Rattle.std.specs.Option.{option_copied};
    ghost use Rattle.postfix_rules.specs.Presets.{entry};
    ghost use Rattle.postfix_rules.specs.Rules.{IsDerived};

    /// A book with each entry at its place.
    pub fn new(rows: Vec<Option<Derived>>) -> PresetBook
        ensures { result ≡ rows.items }
    {
        PresetBook { rows }
    }

    /// What is derived in a row; `None` if the preset is not available, or there is no such row.
    pub fn get(&self, row: u32) -> Option<&Derived>
        ensures entry { option_copied result ≡ entry self.now row }
        ensures derived { IfSome result (λ d. IsDerived d.now) }
    {
        match self.rows.get(row as usize) {
            Some(Some(d)) => {
                let _natives = d.natives();
                Some(d)
            }
            _ => None,
        }
    }
}
