//! The tables of a unit.

ghost use Rattle.std.specs.Prelude.{◌≡◌, ◌≤◌, map, length, slice_get, option_map};
ghost use Rattle.std.specs.List.{AllByRecursion};
ghost use Rattle.event_tables.specs.Index.{AreKept};
ghost use Rattle.event_tables.specs.Kept.{IsCounter, IsTables};
ghost use Rattle.event_tables.specs.Tables as Texts;
ghost use Rattle.papi_base.specs.declared.limits.TheConstants.{MOST_COUNTERS};
ghost use Rattle.event_tables.specs.Views.{component_text, counter_text, event_text};

use crate::component::{Component, Counter, EventRow};
use crate::lower_name::LowerName;
use papi_base::{CompShape, Shape};
use std::marker::Model;

/// The components of a unit with their counters, events and umasks.
///
/// Contracts see them as the list of components, with their names as texts. The limits hold, names have the form of
/// a name and are not repeated, each event has a counter, and no event has two default umasks.
#[derive(Drop)]
pub struct Tables {
    components: Vec<Component>,
}

impl Model for Tables {
    ghost use Rattle.std.specs.Prelude.{List, map};
    ghost use Rattle.event_tables.specs.Tables.{ComponentText};

    ghost Value = { List ComponentText };

    ghost use Rattle.event_tables.specs.Index.{AreKept};
    ghost use Rattle.event_tables.specs.Views.{component_text};

    ghost view = { λ t. map component_text t.components.items };

    ghost invariant = { λ t. AreKept t.components.items };
}

impl Tables {
    /// These components, which keep what tables keep.
    pub(crate) fn new(components: Vec<Component>) -> Tables
        requires { AreKept components.items }
        ensures { result ≡ map component_text components.items }
    {
        Tables { components }
    }

    /// How many components there are, at most 16.
    pub fn components(&self) -> u32
        ensures count { result ≡ length self.now }
        ensures kept { IsTables self.now }
    {
        self.components.len() as u32
    }

    /// The component in a place from 0, and `None` if there is none.
    pub fn component(&self, i: u32) -> Option<&Component>
        ensures { option_map (λ c. component_text c.now) result ≡ slice_get self.now i }
    {
        self.components.as_slice().get(i as usize)
    }

    /// The event in a row of a component, and `None` if there is none.
    pub fn event(&self, comp: u32, row: u32) -> Option<&EventRow>
        ensures { option_map (λ e. event_text e.now) result ≡ Texts.event_at self.now comp row }
    {
        self.component(comp)?.events.as_slice().get(row as usize)
    }

    /// A counter of a component, and `None` if there is none.
    pub fn counter(&self, comp: u32, c: u32) -> Option<&Counter>
        ensures { option_map (λ k. counter_text k.now) result ≡ Texts.counter_at self.now comp c }
    {
        self.component(comp)?.counters.as_slice().get(c as usize)
    }

    /// The component of this name, without regard to ASCII case, and `None` if there is none.
    pub fn find_component(&self, name: &str) -> Option<u32>
        ensures { result ≡ Texts.component_of_name self.now name.now }
    {
        match place_of_name(self.components.as_slice(), name) {
            Some(i) => Some(i as u32),
            None => None,
        }
    }

    /// The row of the event of this name in a component, and `None` if there is none.
    pub fn find_event(&self, comp: u32, name: &LowerName) -> Option<u32>
        ensures { result ≡ Texts.event_of_lower self.now comp name.now }
    {
        match self.components.as_slice().get(comp as usize) {
            Some(c) => c.rows.get(name.as_str()).copied(),
            None => None,
        }
    }

    /// The widths of each component's counters.
    pub fn shape(&self) -> Shape
        ensures { result ≡ Texts.shape_of self.now }
    {
        shape_of(self.components.as_slice())
    }
}

// The widths of each component's counters.
fn shape_of(components: &[Component]) -> Shape
    requires { IsTables (map component_text components.now) }
    ensures { result ≡ Texts.shape_of (map component_text components.now) }
{
    let mut shape = Shape::new();
    for c in components {
        shape.push(comp_shape(c.counters.as_slice()));
    }
    shape
}

// The widths of these counters.
fn comp_shape(counters: &[Counter]) -> CompShape
    requires few { length counters.now ≤ MOST_COUNTERS }
    requires counters { AllByRecursion IsCounter (map counter_text counters.now) }
    ensures { result ≡ map (λ k. k.width) (map counter_text counters.now) }
{
    let mut shape = CompShape::new();
    for k in counters {
        shape.push(k.width);
    }
    shape
}

// The place of the first component of this name.
fn place_of_name(components: &[Component], name: &str) -> Option<usize>
    ensures { result ≡ Texts.component_of_name (map component_text components.now) name.now }
{
    components
        .iter()
        .position(|c| c.name.as_str().eq_ignore_ascii_case(name))
}
