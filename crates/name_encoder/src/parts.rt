//! The parts of an event's text: `[component:::][pmu::]event[:attribute]..`, after libpfm4(3).

ghost use Rattle.std.specs.Prelude.{◌≡◌, ◌==◌, ◌∷◌, codes, option_map};
ghost use Rattle.std.specs.List.{slice_split};
ghost use Rattle.name_encoder.specs.Split as Split;
ghost use Rattle.name_encoder.specs.Views.{between_colons, parts_split, text_of};

/// The parts of a text. The attributes stand with colons between them.
#[derive(Clone, Copy)]
pub struct Parts<'t> {
    pub comp: Option<&'t [u8]>,
    pub pmu: Option<&'t [u8]>,
    pub event: &'t [u8],
    pub attributes: Option<&'t [u8]>,
}

/// What stands before the first place of the mark, and after it.
pub fn cut_at<'t>(text: &'t [u8], mark: &[u8]) -> Option<(&'t [u8], &'t [u8])>
    ensures { option_map (λ p. (p.0.now, p.1.now)) result ≡ Split.cut_at mark.now text.now }
{
    for i in 0..text.len() {
        let rest = &text[i..];
        if rest.starts_with(mark) {
            return Some((&text[..i], &rest[mark.len()..]));
        }
    }
    None
}

// What stands before the mark, if the text has it, and the rest.
fn prefix_of<'t>(text: &'t [u8], mark: &[u8]) -> (Option<&'t [u8]>, &'t [u8])
    ensures { (text_of result.0, result.1.now) ≡ Split.prefix_of mark.now text.now }
{
    match cut_at(text, mark) {
        Some((front, rest)) => (Some(front), rest),
        None => (None, text),
    }
}

/// The part before the first colon, and what follows that colon.
pub fn first_part(text: &[u8]) -> (&[u8], Option<&[u8]>)
    ensures { slice_split (λ b. b == 58) text.now
        ≡ result.0.now ∷ between_colons (text_of result.1) }
{
    match cut_at(text, b":") {
        Some((part, rest)) => (part, Some(rest)),
        None => (text, None),
    }
}

/// The parts of an event's text.
#[tactic(auto, unfolding(crate::specs::Split::split))]
pub fn parts_of(text: &[u8]) -> Parts<'_>
    ensures { parts_split result ≡ Split.split text.now }
{
    let (comp, rest) = prefix_of(text, b":::");
    let (pmu, rest) = prefix_of(rest, b"::");
    let (event, attributes) = first_part(rest);
    Parts {
        comp,
        pmu,
        event,
        attributes,
    }
}
