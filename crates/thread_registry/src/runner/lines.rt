//! Lines with their replies, each of which stays in the list of its thread.
ghost use Rattle.std.specs.Prelude.{◌≡◌, ◌<◌, All, IfSome, Some, length, map, slice_get};
ghost use Rattle.reply_lists.specs.Shown.{IsShownOf};
ghost use Rattle.thread_registry.specs.Answers.{AllAnswered, IsAnswered, answer_of, line_of};

use crate::runner::result::ReplyLine;
use call_type::CallName;
use papi_base::{Code, EventRef};
use reply_lists::{Replies, Shown};
use session_model::{Body, Ended, Reply};
use std::marker::Model;

/// What a line is answered with: the reply at this place of its thread's list; the code of an event, or the code with which its
/// text was refused; the event of a code, if there is one; or the registered threads.
#[derive(Clone, Copy)]
pub enum Answer {
    Made(usize),
    CodeOf(Result<u32, Code>),
    NameOf(Option<EventRef>),
    Threads(u64),
}

/// A line without its reply: the number of its script line from 1, its thread, the name of its call, and what it is answered with.
#[derive(Clone, Copy)]
pub struct AnsweredLine {
    pub line: u64,
    pub thread: u32,
    pub word: CallName,
    pub answer: Answer,
}

/// What of a line stands before its reply: the number of its script line from 1, its thread, and the name of its call.
#[derive(Clone, Copy)]
pub struct LineHead {
    pub line: u64,
    pub thread: u32,
    pub word: CallName,
}

/// A reply that is the code alone.
fn plain_reply(code: Code) -> Reply
    ensures { result ≡ record { code = code; body = Body.Nothing } }
{
    Reply {
        code,
        body: Body::Nothing,
    }
}

/// `PAPI_OK` with a result.
fn done(body: Body) -> Reply
    ensures { result ≡ record { code = Code.Ok; body = body } }
{
    Reply {
        code: Code::Ok,
        body,
    }
}

/// The reply of a line.
fn reply_of(lists: &[Replies], line: &AnsweredLine) -> Reply
    requires answered { IsAnswered lists.now line.now }
    ensures reply { result ≡ answer_of lists.now line.now.thread line.now.answer }
{
    match line.answer {
        Answer::Made(place) => lists[line.thread as usize].at(place),
        Answer::CodeOf(Ok(number)) => done(Body::EventCode(number)),
        Answer::CodeOf(Err(code)) => plain_reply(code),
        Answer::NameOf(Some(event)) => done(Body::EventName(event)),
        Answer::NameOf(None) => plain_reply(Code::Enoevnt),
        Answer::Threads(threads) => done(Body::Threads(threads)),
    }
}

/// Lines with their replies. Contracts see the list of them.
#[derive(Drop)]
pub struct ReplyLines {
    lines: Vec<AnsweredLine>,
    replies: Vec<Replies>,
}

impl Model for ReplyLines {
    ghost use Rattle.std.specs.Prelude.{List, map};
    ghost use Rattle.thread_registry.specs.declared.runner.result.ReplyLine.{ReplyLine};
    ghost use Rattle.thread_registry.specs.Answers.{AllAnswered, line_of};

    ghost Value = { List ReplyLine };

    ghost view = { λ l. map (line_of l.replies.items) l.lines.items };

    ghost invariant = { λ l. AllAnswered l.replies.items l.lines.items };
}

impl ReplyLines {
    ghost use Rattle.session_model.specs.World.{met_in};
    ghost use Rattle.std.specs.Option.{option_map};

    /// These lines, over the replies of each thread.
    pub(crate) fn new(lines: Vec<AnsweredLine>, replies: Vec<Replies>) -> ReplyLines
        requires answered { AllAnswered replies.items lines.items }
        ensures lines { result ≡ map (line_of replies.items) lines.items }
    {
        ReplyLines { lines, replies }
    }

    /// How many lines there are.
    pub fn len(&self) -> usize
        ensures length { result ≡ length self.now }
    {
        self.lines.len()
    }

    /// The line at a place that is there.
    pub fn at(&self, i: usize) -> ReplyLine
        requires place { i < length self.now }
        ensures line { slice_get self.now i ≡ Some result }
    {
        let line = &self.lines[i];
        ReplyLine {
            line: line.line,
            thread: line.thread,
            word: line.word,
            reply: reply_of(self.replies.as_slice(), line),
        }
    }

    /// What stands before the reply of the line at a place that is there.
    #[inline(always)]
    pub fn head_at(&self, i: usize) -> LineHead
        requires place { i < length self.now }
        ensures line { option_map (λ l. l.line) (slice_get self.now i) ≡ Some result.line }
        ensures thread { option_map (λ l. l.thread) (slice_get self.now i) ≡ Some result.thread }
        ensures word { option_map (λ l. l.word) (slice_get self.now i) ≡ Some result.word }
    {
        let line = &self.lines[i];
        LineHead {
            line: line.line,
            thread: line.thread,
            word: line.word,
        }
    }

    /// What is shown of the reply of the line at a place that is there.
    #[inline(always)]
    pub fn shown_at(&self, i: usize) -> Shown<'_>
        requires place { i < length self.now }
        ensures shown { IfSome (slice_get self.now i) (λ l. IsShownOf result l.reply) }
    {
        let line = &self.lines[i];
        match line.answer {
            Answer::Made(place) => self.replies[line.thread as usize].shown_at(place),
            _ => Shown::Other,
        }
    }

    /// The thread of the line at a place that is there.
    pub fn thread_at(&self, i: usize) -> u32
        requires place { i < length self.now }
        ensures thread { option_map (λ l. l.thread) (slice_get self.now i) ≡ Some result }
    {
        self.lines[i].thread
    }

    /// How a run ended that met a mark, if the reply of the line at a place that is there is that of such a run.
    pub fn mark_at(&self, i: usize) -> Option<Ended>
        requires place { i < length self.now }
        ensures mark { option_map (λ l. met_in l.reply.body) (slice_get self.now i) ≡ Some result }
    {
        let line = &self.lines[i];
        match line.answer {
            Answer::Made(place) => self.replies[line.thread as usize].mark_at(place),
            _ => None,
        }
    }
}
