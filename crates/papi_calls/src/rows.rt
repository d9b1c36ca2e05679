//! What a unit's file says of its components and native events, row by row: PAPI_get_component_info(3), PAPI_enum_cmp_event(3).
ghost use Rattle.std.specs.Prelude.{◌≡◌, IfOk, length, option_map, slice_get, string_bytes};
ghost use Rattle.event_tables.specs.Views as Views;
ghost use Rattle.papi_calls.specs.Codes.{event_coded};
ghost use Rattle.papi_calls.specs.Rows as Rows;
ghost use Rattle.papi_calls.specs.Rows.{of_event};

use crate::library::Library;
use event_tables::{Component, EventRow, Tables, UmaskRow};
use papi_base::{Code, EventRef, Natives};
use postfix_rules::PresetBook;
use std::alloc::{AllocError, Global};

/// A part of what the rows of a component say: its name, the name of its pmu, and that of the counter in a place from 0.
#[derive(Clone, Copy)]
pub enum ComponentPart {
    Name,
    Pmu,
    Counter(u32),
}

/// A part of what the rows of a native event say: its name `PMU::EVENT` and its description, and of the umask in a place from 0 the name
/// `PMU::EVENT:UMASK` and the description.
#[derive(Clone, Copy)]
pub enum NativePart {
    Name,
    Description,
    Mask(u32),
    MaskDescription(u32),
}

// A part of what the rows of a component say.
fn component_part(
    alloc: Global,
    tables: &Tables,
    comp: u32,
    part: ComponentPart,
) -> Result<Option<String>, AllocError>
    ensures { IfOk result (λ text. option_map string_bytes text
        ≡ Rows.component_text tables.now part comp) }
{
    let Some(component) = tables.component(comp) else {
        return Ok(None);
    };
    match part {
        ComponentPart::Name => Ok(Some(String::from_str(alloc, component.name.as_str())?)),
        ComponentPart::Pmu => Ok(Some(String::from_str(alloc, component.pmu.as_str())?)),
        ComponentPart::Counter(place) => match tables.counter(comp, place) {
            Some(counter) => Ok(Some(String::from_str(alloc, counter.name.as_str())?)),
            None => Ok(None),
        },
    }
}

// The umask of an event in a place.
fn mask_in(event: &EventRow, place: u32) -> Option<&UmaskRow>
    ensures { option_map (λ m. Views.mask_text m.now) result
        ≡ slice_get (Views.event_text event.now).masks place }
{
    event.masks.as_slice().get(place as usize)
}

// A part of what the rows of an event say.
fn native_part(
    alloc: Global,
    component: &Component,
    event: &EventRow,
    part: NativePart,
) -> Result<Option<String>, AllocError>
    ensures { IfOk result (λ text. option_map string_bytes text
        ≡ Rows.native_part part (Views.component_text component.now) (Views.event_text event.now)) }
{
    match part {
        NativePart::Name => Ok(Some(format!(in alloc; "{}::{}", component.pmu, event.name)?)),
        NativePart::Description => Ok(Some(String::from_str(alloc, event.text.as_str())?)),
        NativePart::Mask(place) => match mask_in(event, place) {
            Some(mask) => Ok(Some(format!(in alloc;
                "{}::{}:{}",
                component.pmu, event.name, mask.name
            )?)),
            None => Ok(None),
        },
        NativePart::MaskDescription(place) => match mask_in(event, place) {
            Some(mask) => Ok(Some(String::from_str(alloc, mask.text.as_str())?)),
            None => Ok(None),
        },
    }
}

// The component of the first native event.
fn first_component(natives: &Natives) -> Result<u32, Code>
    ensures { result ≡ Rows.first_component natives.now }
{
    if natives.len() == 0 {
        return Err(Code::Enoevnt);
    }
    Ok(natives.at(0).comp)
}

// The component of an event.
fn component_of(book: &PresetBook, event: &EventRef) -> Result<u32, Code>
    ensures { result ≡ Rows.component_of book.now event.now }
{
    match event {
        EventRef::Native(native) => Ok(native.comp),
        EventRef::Preset(row) => match book.get(*row) {
            Some(derived) => first_component(derived.natives()),
            None => Err(Code::Enoevnt),
        },
    }
}

// The row of a native event.
fn row_of(event: &EventRef) -> Result<u32, Code>
    ensures { result ≡ Rows.row_of event.now }
{
    match event {
        EventRef::Native(native) => Ok(native.event),
        EventRef::Preset(_) => Err(Code::Enoevnt),
    }
}

impl Library {
    /// A part of what the rows of a component say, and `None` if there is no such component or counter.
    pub fn component_text(
        &self,
        alloc: Global,
        comp: u32,
        part: ComponentPart,
    ) -> Result<Option<String>, AllocError>
        ensures text { IfOk result
            (λ text. option_map string_bytes text
            ≡ Rows.component_text self.now.catalog.tables part comp) }
    {
        component_part(alloc, self.catalog.tables(), comp, part)
    }

    /// A part of what the rows of the native event in a row of a component say, and `None` if there is no such row or umask.
    pub fn native_text(
        &self,
        alloc: Global,
        comp: u32,
        row: u32,
        part: NativePart,
    ) -> Result<Option<String>, AllocError>
        ensures text { IfOk result
            (λ text. option_map string_bytes text
            ≡ Rows.native_text self.now.catalog.tables part comp row) }
    {
        let tables = self.catalog.tables();
        let Some(component) = tables.component(comp) else {
            return Ok(None);
        };
        match tables.event(comp, row) {
            Some(event) => native_part(alloc, component, event, part),
            None => Ok(None),
        }
    }

    /// The component of the event of a code: PAPI_get_event_component(3). ENOEVNT if it is the code of no event that is available.
    pub fn component_of(&self, code: u32) -> Result<u32, Code>
        ensures component { result
            ≡ of_event (Rows.component_of self.now.catalog.book)
            (event_coded self.now.catalog self.now.mentioned code) }
    {
        component_of(self.catalog.book(), &self.event_of(code)?)
    }

    /// The row in its component of the native event of a code. ENOEVNT if it is the code of no native event.
    pub fn row_of(&self, code: u32) -> Result<u32, Code>
        ensures row { result ≡ of_event Rows.row_of
            (event_coded self.now.catalog self.now.mentioned code) }
    {
        row_of(&self.event_of(code)?)
    }
}
