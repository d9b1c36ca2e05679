//! `papi_encode`: gives the codes of events.
ghost use Rattle.std.specs.Prelude.{◌≡◌, IfOk, Ok, string_bytes};
ghost use Rattle.papi_tools.specs.Openings.{Answers, ToolSays};
ghost use Rattle.papi_tools.specs.Looking.{FilesSeen, IsTextual, LookedBy, StaysHeld, StopsByFile};
ghost use Rattle.papi_tools.specs.Encoding.{answer_line, encode_verdict, encoded_said};

use crate::contents::read_file;
use crate::limits::TABLE_BYTES;
use crate::{Said, ToolResult};
use event_tables::Tables;
use name_encoder::{NameFault, cause_word, code64, encode, write_name};
use papi_base::{Bytes, Files, Native, Text};
use std::alloc::{AllocError, Global};
use tool_words::EncodeWords;

// The line of a name, for which this is the answer.
fn line_of(
    alloc: Global,
    tables: &Tables,
    name: &Text,
    answer: Result<Native, NameFault>,
) -> Result<String, AllocError>
    ensures { IfOk result (λ line. string_bytes line ≡ answer_line tables.now name.now answer) }
{
    match answer {
        Ok(native) => {
            let canonical = write_name(alloc, tables, &native)?;
            let code = code64(&native);
            format!(in alloc; "{canonical} 0x{code:x}\n")
        }
        Err(fault) => {
            let word = cause_word(fault);
            format!(in alloc; "{word} {name}\n")
        }
    }
}

// What is said of names.
#[tactic(auto, unfolding(crate::specs::Encoding::encoded_said))]
fn said_of(alloc: Global, tables: &Tables, names: &[Text]) -> ToolResult
    ensures said { Answers result (Ok (encoded_said tables.now names.now)) }
    ensures textual { IfOk result (λ said. IsTextual (Unit {0}) said.outcome) }
    ensures cause { (before after : FilesSeen) → StopsByFile result before after }
{
    let mut all_encode = true;
    let mut lines = Bytes::new(Vec::new(alloc));
    for name in names {
        let answer = encode(tables, name.as_str());
        if answer.is_err() {
            all_encode = false;
        }
        let line = line_of(alloc, tables, name, answer)?;
        lines.append(line.as_bytes())?;
    }
    Ok(Said::text(alloc, all_encode, lines))
}

/// `papi_encode`: reads the unit, and gives each name's canonical name and code, or why it names no native event.
pub fn encode_names<F: Files>(alloc: Global, files: &mut F, words: &EncodeWords) -> ToolResult
    ensures said { ToolSays (F.held files.old) result encode_verdict words.now }
    ensures textual { IfOk result (λ said. IsTextual (Unit {0}) said.outcome) }
    ensures looked { LookedBy F.held F.misses F.faults F.lent result 0 files.old files.new }
    ensures held { StaysHeld (F.held files.old) (F.held files.new) }
{
    let tables: Tables = read_file(alloc, files, words.unit.as_str(), TABLE_BYTES)?;
    said_of(alloc, &tables, words.names.as_slice())
}
