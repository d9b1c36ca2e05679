//! The counters of a unit's components.
ghost use Rattle.std.specs.Prelude.{◌≡◌, ◌+◌, ◌<◌, ◌≤◌, List, [], ◌∷◌, ◌++◌, length, slice_get, slice_index, unwrap_or};
ghost use Rattle.papi_base.specs.Widths.{AreWidths};
ghost use Rattle.papi_base.specs.declared.limits.TheConstants.{LEAST_WIDTH, MOST_COMPONENTS, MOST_COUNTERS, MOST_WIDTH};

use crate::ShortList;
use crate::limits::{MOST_COMPONENTS, MOST_COUNTERS};
use std::marker::Model;

/// The counters of a component, at most [`MOST_COUNTERS`], by their widths, each from [`LEAST_WIDTH`] to [`MOST_WIDTH`] bits.
#[derive(Drop)]
pub struct CompShape {
    widths: ShortList<u8>,
}

impl Model for CompShape {
    ghost use Rattle.std.specs.Prelude.{List, ℕ};
    ghost use Rattle.papi_base.specs.Widths.{AreWidths};

    ghost Value = { List ℕ };

    ghost view = { λ s. s.widths };

    ghost invariant = { λ s. AreWidths s.widths };
}

impl CompShape {
    /// A component without counters.
    pub fn new() -> CompShape
        ensures empty { result ≡ [] }
    {
        CompShape {
            widths: ShortList::new(),
        }
    }

    /// One more counter of this width.
    pub fn push(&mut self, width: u8)
        requires room { length self.old < MOST_COUNTERS }
        requires low { LEAST_WIDTH ≤ width }
        requires high { width ≤ MOST_WIDTH }
        ensures pushed { self.new ≡ self.old ++ width ∷ [] }
    {
        self.widths.push(width);
    }

    /// How many counters it has.
    #[inline(always)]
    pub fn counters(&self) -> u32
        ensures length { result ≡ length self.now }
        ensures short { length self.now ≤ MOST_COUNTERS }
        ensures widths { AreWidths self.now }
    {
        self.widths.len()
    }

    /// The width of a counter that is there, in bits.
    #[inline(always)]
    pub fn width(&self, c: u32) -> u8
        requires counter { c < length self.now }
        ensures width { result ≡ slice_index self.now c }
        ensures low { LEAST_WIDTH ≤ result }
        ensures high { result ≤ MOST_WIDTH }
    {
        self.widths.at(c)
    }

    /// The same counters once more.
    pub fn copy(&self) -> CompShape
        ensures same { result ≡ self.now }
    {
        CompShape {
            widths: self.widths.copy(),
        }
    }
}

impl Default for CompShape {
    fn default() -> CompShape {
        CompShape::new()
    }
}

/// The counters of each component, of which there are at most [`MOST_COMPONENTS`].
#[derive(Drop)]
pub struct Shape {
    comps: u32,
    comp: [CompShape; MOST_COMPONENTS],
}

impl Model for Shape {
    ghost use Rattle.std.specs.Prelude.{List, ℕ, take, length, ◌≤◌, ◌≡◌};
    ghost use Rattle.papi_base.specs.declared.limits.TheConstants.{MOST_COMPONENTS};

    ghost Value = { List (List ℕ) };

    ghost view = { λ s. take s.comps s.comp };

    ghost invariant = { λ s. (s.comps ≤ MOST_COMPONENTS) × (length s.comp ≡ MOST_COMPONENTS) };
}

impl Shape {
    /// No components.
    pub fn new() -> Shape
        ensures empty { result ≡ [] }
    {
        Shape {
            comps: 0,
            comp: Default::default(),
        }
    }

    /// One more component.
    pub fn push(&mut self, comp: CompShape)
        requires room { length self.old < MOST_COMPONENTS }
        ensures pushed { self.new ≡ self.old ++ comp ∷ [] }
    {
        self.comp[self.comps as usize] = comp;
        self.comps += 1;
    }

    /// How many components there are.
    pub fn comps(&self) -> u32
        ensures length { result ≡ length self.now }
        ensures short { length self.now ≤ MOST_COMPONENTS }
    {
        self.comps
    }

    /// The counters of a component that is there.
    #[inline(always)]
    pub fn comp(&self, i: u32) -> &CompShape
        requires component { i < length self.now }
        ensures counters { slice_get self.now i ≡ Some result.now }
    {
        &self.comp[i as usize]
    }

    /// How many counters a component has, and 0 if there is no such component.
    pub fn counters_of(&self, i: u32) -> u32
        ensures counters { result ≡ length (unwrap_or (slice_get self.now i) []) }
    {
        if i < self.comps {
            self.comp[i as usize].counters()
        } else {
            0
        }
    }
}
