//! Replies that are kept as they are made.
ghost use Rattle.std.specs.Prelude.{ℤ, ◌≡◌, ◌≤◌, ◌++◌, ◌∷◌, [], IfOk, List, OnErr, OnOk, length};
ghost use Rattle.papi_base.specs.declared.limits.TheConstants.{MOST_ITEMS};
ghost use Rattle.session_model.specs.declared.reply.Body.TheVariants as body;
ghost use Rattle.reply_lists.specs.Parts.{HoldsAt};

use crate::kept::{Head, Kept, Span};
use crate::replies::Replies;
use papi_base::Code;
use session_model::Ran;
use std::alloc::AllocError;

/// Appends the values, and says where they stand.
#[inline(always)]
fn keep_values(values: &[i64], all: &mut Vec<i64>) -> Result<Span, AllocError>
    requires few { length values.now ≤ MOST_ITEMS }
    ensures span { IfOk result (λ s. HoldsAt s all.new.items values.now) }
    ensures grown { (more : List ℤ) × (all.new.items ≡ all.old.items ++ more) }
{
    let from = all.len();
    all.extend_from_slice(values)?;
    Ok(Span {
        from,
        len: values.len() as u32,
    })
}

impl Replies {
    /// One more reply at the end, of a code and values.
    #[inline(always)]
    pub fn push_values(&mut self, code: Code, values: &[i64]) -> Result<(), AllocError>
        requires few { length values.now ≤ MOST_ITEMS }
        ensures ok { OnOk result (self.new
            ≡ self.old ++ record { code = code; body = body.Values values.now } ∷ []) }
        ensures err { OnErr result (self.new ≡ self.old) }
    {
        let span = keep_values(values, &mut self.store.values)?;
        self.heads.push(Head {
            code,
            kept: Kept::Values(span),
        })?;
        Ok(())
    }

    /// One more reply at the end, of a code alone.
    #[inline(always)]
    pub fn push_plain(&mut self, code: Code) -> Result<(), AllocError>
        ensures ok { OnOk result (self.new
            ≡ self.old ++ record { code = code; body = body.Nothing } ∷ []) }
        ensures err { OnErr result (self.new ≡ self.old) }
    {
        self.heads.push(Head {
            code,
            kept: Kept::Nothing,
        })?;
        Ok(())
    }

    /// One more reply at the end, of a code and what a run did.
    #[inline(always)]
    pub fn push_ran(&mut self, code: Code, ran: Ran) -> Result<(), AllocError>
        ensures ok { OnOk result (self.new
            ≡ self.old ++ record { code = code; body = body.Ran ran } ∷ []) }
        ensures err { OnErr result (self.new ≡ self.old) }
    {
        self.heads.push(Head {
            code,
            kept: Kept::Ran(ran),
        })?;
        Ok(())
    }
}
