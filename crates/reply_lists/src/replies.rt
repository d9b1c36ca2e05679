//! Lists of replies.
ghost use Rattle.std.specs.Prelude.{◌≡◌, ◌<◌, ◌++◌, ◌∷◌, [], IfOk, OnErr, OnOk, Some, length, slice_get};
ghost use Rattle.std.specs.Option.{option_map};
ghost use Rattle.session_model.specs.World.{met_in};

use crate::events::EventList;
use crate::keeping::keep;
use crate::kept::{Head, Kept, Store};
use crate::reading::body_of;
use papi_base::Code;
use session_model::{Ended, Reply};
use std::alloc::{AllocError, Global};
use std::marker::Model;

/// Replies, in order. Contracts see the list of them.
#[derive(Drop)]
pub struct Replies {
    pub(crate) heads: Vec<Head>,
    pub(crate) store: Store,
}

impl Model for Replies {
    ghost use Rattle.std.specs.Prelude.{List, map};
    ghost use Rattle.session_model.specs.declared.reply.Reply.{Reply};
    ghost use Rattle.reply_lists.specs.Bodies.{AllHaveParts, reply_of};

    ghost Value = { List Reply };

    ghost view = { λ r. map (reply_of r.store) r.heads.items };

    ghost invariant = { λ r. AllHaveParts r.store r.heads.items };
}

impl Replies {
    /// No replies, and memory for the heads of so many.
    pub fn with_capacity(alloc: Global, capacity: usize) -> Result<Replies, AllocError>
        ensures empty { IfOk result (λ r. r ≡ []) }
    {
        let heads = Vec::with_capacity(alloc, capacity)?;
        Ok(Replies {
            heads,
            store: Store {
                values: Vec::new(alloc),
                events: EventList::new(alloc),
                counters: Vec::new(alloc),
            },
        })
    }

    /// How many replies there are.
    pub fn len(&self) -> usize
        ensures length { result ≡ length self.now }
    {
        self.heads.len()
    }

    /// One more reply at the end.
    pub fn push(&mut self, reply: &Reply) -> Result<(), AllocError>
        ensures ok { OnOk result (self.new ≡ self.old ++ reply.now ∷ []) }
        ensures err { OnErr result (self.new ≡ self.old) }
    {
        let kept = keep(&reply.body, &mut self.store)?;
        self.heads.push(Head {
            code: reply.code,
            kept,
        })?;
        Ok(())
    }

    /// The code of the reply at a place that is there.
    pub fn code_at(&self, i: usize) -> Code
        requires place { i < length self.now }
        ensures code { option_map (λ r. r.code) (slice_get self.now i) ≡ Some result }
    {
        self.heads[i].code
    }

    /// How a run ended that met a mark, if the reply at a place that is there is that of such a run.
    pub fn mark_at(&self, i: usize) -> Option<Ended>
        requires place { i < length self.now }
        ensures mark { option_map (λ r. met_in r.body) (slice_get self.now i) ≡ Some result }
    {
        match self.heads[i].kept {
            Kept::Ran(ran) => match ran.ended {
                Ended::Going => None,
                mark => Some(mark),
            },
            _ => None,
        }
    }

    /// The reply at a place that is there.
    pub fn at(&self, i: usize) -> Reply
        requires place { i < length self.now }
        ensures reply { slice_get self.now i ≡ Some result }
    {
        let head = &self.heads[i];
        Reply {
            code: head.code,
            body: body_of(&self.store, &head.kept),
        }
    }
}
