//! The pieces of a formula's text, one by one.
ghost use Rattle.std.specs.Prelude.{◌≡◌, ◌<◌, IfSome, length, position};
ghost use Rattle.postfix_rules.specs.Judged.{parts_after};
ghost use Rattle.postfix_rules.specs.Tokens.{is_bar, parts_of};

use table_rows::trimmed;

// The place of the first `|`.
fn bar_in(text: &[u8]) -> Option<usize>
    ensures { result ≡ position is_bar text.now }
{
    text.iter().position(|b| *b == b'|')
}

/// The first piece, without the blanks round it, and the text after its `|`. A last piece without `|` does not count if it is
/// empty or has only blanks.
pub(crate) fn next_piece(text: &[u8]) -> Option<(&[u8], &[u8])>
    ensures parts { parts_of text.now ≡ parts_after result }
    ensures shorter { IfSome result (λ p. length p.1.now < length text.now) }
{
    match bar_in(text) {
        Some(end) => Some((trimmed(&text[..end]), &text[end + 1..])),
        None => last_piece(text),
    }
}

// The piece of a text that has no `|`.
fn last_piece(text: &[u8]) -> Option<(&[u8], &[u8])>
    requires { position is_bar text.now ≡ None }
    ensures parts { parts_of text.now ≡ parts_after result }
    ensures shorter { IfSome result (λ p. length p.1.now < length text.now) }
{
    let piece = trimmed(text);
    if piece.is_empty() {
        None
    } else {
        Some((piece, &[]))
    }
}
