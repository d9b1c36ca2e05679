//! The words of a line.

ghost use Rattle.std.specs.Prelude.{◌≡◌, IfOk, map};
ghost use Rattle.script_lines.specs.Words.{texts, with_word, words_of};

use smallvec::SmallVec;
use std::alloc::{AllocError, Global};
use table_rows::is_blank;

// A word more, unless it is empty.
fn push_word<'a>(words: &mut SmallVec<&'a [u8], 8>, word: &'a [u8]) -> Result<(), AllocError>
    ensures { IfOk result (λ _.
        texts words.new.items ≡ with_word (texts words.old.items) word.entry.now) }
{
    if !word.is_empty() {
        words.push(word)?;
    }
    Ok(())
}

/// The words of a line, of which the first eight take no memory.
pub fn split_words<'a>(alloc: Global, line: &'a [u8]) -> Result<SmallVec<&'a [u8], 8>, AllocError>
    ensures { IfOk result (λ v. map (λ w. w.now) v.items ≡ words_of line.entry.now) }
{
    let mut words = SmallVec::new(alloc);
    let mut from = 0;
    for i in 0..line.len() {
        if is_blank(line[i]) {
            push_word(&mut words, &line[from..i])?;
            from = i + 1;
        }
    }
    push_word(&mut words, &line[from..])?;
    Ok(words)
}
