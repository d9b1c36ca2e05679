//! The streams, drawn as they are read.
ghost use Rattle.std.specs.Prelude.{◌≡◌, ◌<◌, ◌≤◌, ◌++◌, length, min, take};
ghost use Rattle.arrayvec.specs.ArrayVec.{array_vec_len};
ghost use Rattle.soak_input.specs.Streams.{stream_text};

use crate::line::{Line, line_text};
use crate::{Generator, Occurrence};
use arrayvec::ArrayVec;
use papi_base::{Failed, Source};

/// The stream of a thread of a soak, whose lines are drawn as they are read. It never fails, and ends well.
#[derive(Drop)]
pub struct SoakSource {
    generator: Generator,
    left: u64,
    line: Line,
    given: usize,
    ghost within: { given ≤ array_vec_len line },
}

impl SoakSource {
    ghost use Rattle.soak_input.specs.SourceView.{text_left};

    /// The stream of a thread of a soak of n rounds, from its beginning.
    #[tactic(auto, unfolding(crate::specs::Streams::stream_text))]
    pub fn new(rounds: u32, thread: u32) -> SoakSource
        ensures { text_left result ≡ stream_text rounds thread }
    {
        SoakSource {
            generator: Generator::new(64 * u64::from(rounds) + u64::from(thread)),
            left: 100 * u64::from(rounds),
            line: ArrayVec::new(),
            given: 0,
        }
    }

    // Draws the next line, if the last one was given.
    fn draw_line(&mut self)
        requires given { array_vec_len self.old.line ≡ self.old.given }
        requires left { 0 < self.old.left }
        ensures text { text_left self.new ≡ text_left self.old }
        ensures some { self.new.given < array_vec_len self.new.line }
    {
        self.line = line_text(&Occurrence::draw(&mut self.generator));
        self.given = 0;
        self.left -= 1;
    }

    // Gives bytes of the line that is there, as many as have room.
    fn give(&mut self, room: &mut [u8]) -> usize
        ensures bound { result ≤ length room.new }
        ensures text { text_left self.old ≡ take result room.new ++ text_left self.new }
        ensures some { 0 < length room.new → self.old.given < array_vec_len self.old.line
            → 0 < result }
    {
        let (_, rest) = self.line.as_slice().split_at(self.given);
        let count = copy_front(room, rest);
        self.given += count;
        count
    }
}

// Copies as many bytes as have room.
fn copy_front(room: &mut [u8], bytes: &[u8]) -> usize
    ensures { (result ≡ min (length room.new) (length bytes.now))
        × (take result room.new ≡ take result bytes.now) }
{
    let count = room.len().min(bytes.len());
    room[..count].copy_from_slice(&bytes[..count]);
    count
}

impl Source for SoakSource {
    ghost use Rattle.std.specs.Prelude.{Some};
    ghost use Rattle.soak_input.specs.Source.{left_text, well_ended};

    ghost faults = { λ _. 0 };

    ghost tape = { λ s. Some (well_ended (left_text s.line.items s.given s.left s.generator)) };

    fn read(&mut self, buf: &mut [u8]) -> Result<usize, Failed> {
        let mut filled = 0;
        while filled < buf.len() {
            if self.given == self.line.len() {
                if self.left == 0 {
                    return Ok(filled);
                }
                self.draw_line();
            }
            filled += self.give(&mut buf[filled..]);
        }
        Ok(filled)
    }
}
