//! The codes of events, and the calls that take an event by its code.
#![tactic(auto, using(crate::proofs::Calling::naming))]

ghost use Rattle.std.specs.Prelude.{◌≡◌, IfErr, IfOk, OnErr, OnOk, string_bytes};
ghost use Rattle.component_table.specs.Catalogs.{looked_up};
ghost use Rattle.component_table.specs.EventNames.{event_name};
ghost use Rattle.papi_calls.specs.Calls.{Answered, Made};
ghost use Rattle.papi_calls.specs.Codes.{IsKnown, code_in_row, coded, event_code, event_coded, map_ok};
ghost use Rattle.postfix_rules.specs.Fitting.{EventFits, IsNamed};
ghost use Rattle.postfix_rules.specs.Sameness.{joined_by};
ghost use Rattle.event_tables.specs.Tables.{shape_of};
ghost use Rattle.session_model.specs.Replies.{plain};
ghost use Rattle.session_model.specs.World.{answer, mentions_of};
ghost use Rattle.call_type.specs.declared.call.Call.TheVariants as call;
ghost use Rattle.call_type.specs.declared.call.Asked.TheVariants as asked;
ghost use Rattle.session_model.specs.declared.reply.Body.TheVariants as body;
ghost use Rattle.thread_core.specs.Following.{IsRefusal, changed_reply, reply_of};

use crate::library::Library;
use event_sets::Refusal;
use papi_base::{Code, EventRef};
use session_model::Named;
use std::alloc::{AllocError, Global};

impl Library {
    /// The code of the event that a text names: PAPI_event_name_to_code(3). A native event is mentioned, and has the code of its
    /// first mention. ENOEVNT, EATTR and ECOMBO if the text names none.
    ///
    /// An `Err` comes as of a call by name; nothing is changed then.
    pub fn code_of(&mut self, name: &str) -> Result<Result<u32, Code>, AllocError>
        ensures answered { IfOk result (λ code.
            Answered self.old self.new (asked.CodeOf (looked_up self.old.catalog name.now))
            (reply_of (λ n. body.EventCode n) code)) }
        ensures unchanged { OnErr result (self.new ≡ self.old) }
    {
        match self.catalog.lookup(name) {
            Ok(EventRef::Native(native)) => Ok(Ok(self.mention(native)?)),
            Ok(EventRef::Preset(row)) => Ok(Ok(self.catalog.code_at(row))),
            Err(code) => Ok(Err(code)),
        }
    }

    /// The event of a code: a preset, a user event, or a native event that was mentioned: PAPI_event_code_to_name(3). ENOEVNT for any
    /// other code.
    pub fn event_of(&self, code: u32) -> Result<EventRef, Code>
        ensures answered { Answered self.now self.now (asked.NameOf code)
            (reply_of (λ e. body.EventName e) result) }
        ensures event { result ≡ event_coded self.now.catalog self.now.mentioned code }
        ensures known { IfOk result (IsKnown self.now.mentioned) }
        ensures fits { IfOk result (EventFits (shape_of self.now.catalog.tables)) }
    {
        if let Some(row) = self.catalog.row_of_code(code) {
            return Ok(EventRef::Preset(row));
        }
        match self.codes.native_of(code, self.codes.count()) {
            Some(native) => Ok(EventRef::Native(native)),
            None => Err(Code::Enoevnt),
        }
    }

    /// The code of an event, as `code_of` gives it, and `None` for a native event that was not mentioned.
    pub fn code_of_event(&self, event: &EventRef) -> Option<u32>
        ensures code { result ≡ event_code self.now.catalog self.now.mentioned event.now }
    {
        match event {
            EventRef::Preset(row) => Some(self.catalog.code_at(*row)),
            EventRef::Native(native) => self.codes.code_of(native),
        }
    }

    /// The code of the preset or user event in a row, from 0, and `None` past the last: PAPI_enum_event(3). The presets come first, in the
    /// order of the preset table.
    pub fn code_in_row(&self, row: u32) -> Option<u32>
        ensures code { result ≡ code_in_row self.now.catalog row }
    {
        if row < self.catalog.rows() {
            Some(self.catalog.code(row))
        } else {
            None
        }
    }

    /// The name of the event of a code, a symbol or a canonical name: PAPI_event_code_to_name(3). The `Err` is that memory ran out.
    pub fn name_of(&self, alloc: Global, code: u32) -> Result<Result<String, Code>, AllocError>
        ensures name { IfOk result (λ name.
            map_ok string_bytes name
            ≡ map_ok (event_name self.now.catalog)
            (event_coded self.now.catalog self.now.mentioned code)) }
    {
        match self.event_of(code) {
            Ok(event) => Ok(Ok(self.catalog.event_name(alloc, &event)?)),
            Err(code) => Ok(Err(code)),
        }
    }

    // The event of a code, if it can be added.
    fn coded(&self, code: u32) -> Named
        ensures known { self.now.mentioned
            ≡ joined_by self.now.mentioned (mentions_of (asked.CodeOf result)) }
        ensures coded { result ≡ coded self.now.catalog self.now.mentioned code }
        ensures good { IsNamed self.now.catalog.book self.now.session.core.shape result }
    {
        match self.event_of(code)? {
            EventRef::Preset(row) => match self.catalog.book().get(row) {
                Some(_) => Ok(EventRef::Preset(row)),
                None => Err(Code::Enoevnt),
            },
            EventRef::Native(native) => Ok(EventRef::Native(native)),
        }
    }

    /// Adds the event of a code to a set, and zeroes its counts: PAPI_add_event(3). The refusals are those of the session.
    pub fn add_coded(&mut self, set: u32, code: u32) -> Result<(), Refusal>
        ensures made { Made self.old self.new
            (call.Add set (coded self.old.catalog self.old.mentioned code)) (changed_reply result) }
        ensures refusal { IfErr result IsRefusal }
    {
        let e = self.coded(code);
        self.session.add(self.catalog.book(), set, &e)
    }

    /// Takes the event of a code from a set, and zeroes its counts: PAPI_remove_event(3). The refusals are those of the session.
    pub fn remove_coded(&mut self, set: u32, code: u32) -> Code
        ensures made { Made self.old self.new
            (call.Remove set (coded self.old.catalog self.old.mentioned code)) (plain result) }
    {
        let e = self.coded(code);
        self.session.remove(self.catalog.book(), set, &e)
    }

    /// Sets the threshold of the event of a code, which 0 clears, and zeroes the set's counts: PAPI_overflow(3). The refusals are
    /// those of the session.
    pub fn overflow_coded(&mut self, set: u32, code: u32, threshold: u64) -> Code
        ensures made { Made self.old self.new
            (call.Overflow set (coded self.old.catalog self.old.mentioned code) threshold)
            (plain result) }
    {
        let e = self.coded(code);
        self.session
            .overflow(self.catalog.book(), set, &e, threshold)
    }
}
