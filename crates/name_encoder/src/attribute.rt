//! The attributes of an event's text, one by one.

ghost use Rattle.std.specs.Prelude.{◌≡◌, ◌<◌, ◌≤◌, ◌==◌, map, length, option_map, codes, bytes_eq, Some, [], ◌∷◌};
ghost use Rattle.std.specs.Str.{str_eq_ignore_ascii_case, str_to_ascii_lowercase};
ghost use Rattle.event_tables.specs.Views.{mask_text};
ghost use Rattle.event_tables.specs.declared.limits.TheConstants.{MOST_UMASKS};
ghost use Rattle.name_encoder.specs.Judged as Judged;
ghost use Rattle.name_encoder.specs.Judged.{meaning_text, modifier_text};
ghost use Rattle.name_encoder.specs.Names as Names;
ghost use Rattle.name_encoder.specs.Split as Split;
ghost use Rattle.name_encoder.specs.Views.{between_colons, text_of};

use crate::fault::NameFault;
use crate::parts::{cut_at, first_part};
use event_tables::{MOST_UMASKS, UmaskRow};
use table_rows::{decimal_in, hex_in};

/// A modifier: `u`, `k`, `e`, `i` or `c`.
#[derive(Clone, Copy)]
pub enum Modifier {
    User,
    Kernel,
    Edge,
    Invert,
    Cmask,
}

/// What an attribute names: a umask by its row, or a modifier.
#[derive(Clone, Copy)]
pub enum Meaning {
    Mask(usize),
    Modifier(Modifier),
}

/// What the attributes so far have given.
///
/// `named` has the umask rows that are named, `some` says that there is one, and `alone` that one of them cannot be
/// combined. A modifier has its value if it was named.
#[derive(Clone, Copy)]
pub struct Attributes {
    pub named: [bool; MOST_UMASKS],
    pub some: bool,
    pub alone: bool,
    pub user: Option<u8>,
    pub kernel: Option<u8>,
    pub edge: Option<u8>,
    pub invert: Option<u8>,
    pub cmask: Option<u8>,
}

/// Whether a text is this word, in either case.
pub fn is_word(text: &[u8], word: &[u8]) -> bool
    ensures { result ≡ str_eq_ignore_ascii_case text.now word.now }
{
    text.eq_ignore_ascii_case(word)
}

#[tactic(auto, unfolding(crate::specs::Names::modifier_of))]
fn modifier_of(name: &[u8]) -> Option<Modifier>
    ensures { option_map modifier_text result
        ≡ Names.modifier_of (str_to_ascii_lowercase name.now) }
{
    if is_word(name, b"u") {
        Some(Modifier::User)
    } else if is_word(name, b"k") {
        Some(Modifier::Kernel)
    } else if is_word(name, b"e") {
        Some(Modifier::Edge)
    } else if is_word(name, b"i") {
        Some(Modifier::Invert)
    } else if is_word(name, b"c") {
        Some(Modifier::Cmask)
    } else {
        None
    }
}

// The row of the umask of this name.
fn mask_row(masks: &[UmaskRow], name: &[u8]) -> Option<usize>
    ensures { result ≡ Names.mask_row (map mask_text masks.now) name.now }
{
    masks.iter().position(|m| is_word(m.name.as_bytes(), name))
}

#[tactic(auto, unfolding(crate::specs::Names::meaning_of))]
fn meaning_of(masks: &[UmaskRow], name: &[u8]) -> Option<Meaning>
    ensures { option_map meaning_text result ≡ Names.meaning_of (map mask_text masks.now) name.now }
{
    if let Some(row) = mask_row(masks, name) {
        return Some(Meaning::Mask(row));
    }
    match modifier_of(name) {
        Some(m) => Some(Meaning::Modifier(m)),
        None => None,
    }
}

// The value of a flag: 0 for `0`, `n` and `f`, 1 for `1`, `y`, `t` and if none is given.
#[tactic(auto, unfolding(crate::specs::Names::flag_value))]
fn flag_value(value: Option<&[u8]>) -> Option<u8>
    ensures { result ≡ Names.flag_value (text_of value.entry) }
{
    let Some(text) = value else {
        return Some(1);
    };
    if is_word(text, b"0") || is_word(text, b"n") || is_word(text, b"f") {
        Some(0)
    } else if is_word(text, b"1") || is_word(text, b"y") || is_word(text, b"t") {
        Some(1)
    } else {
        None
    }
}

// The number of a counter mask: decimal up to 255, or `0x` and one or two hexadecimal digits.
#[tactic(auto, unfolding(crate::specs::Names::cmask_value))]
fn cmask_number(text: &[u8]) -> Option<u64>
    ensures { result ≡ Names.cmask_value (Some text.now) }
{
    if text.starts_with(b"0x") {
        hex_in(1, 2, &text[2..])
    } else {
        decimal_in(0, 255, text)
    }
}

// The value of the counter mask, which has to be given.
#[tactic(auto, unfolding(crate::specs::Names::cmask_value))]
fn cmask_value(value: Option<&[u8]>) -> Option<u8>
    ensures { result ≡ Names.cmask_value (text_of value.entry) }
{
    let Some(text) = value else {
        return None;
    };
    match cmask_number(text) {
        Some(n) => Some(n as u8),
        None => None,
    }
}

fn value_of(m: Modifier, value: Option<&[u8]>) -> Option<u8>
    ensures { result ≡ Names.value_of (Names.modifier (modifier_text m)) (text_of value.entry) }
{
    match m {
        Modifier::User => flag_value(value),
        Modifier::Kernel => flag_value(value),
        Modifier::Edge => flag_value(value),
        Modifier::Invert => flag_value(value),
        Modifier::Cmask => cmask_value(value),
    }
}

impl Attributes {
    /// Nothing yet.
    pub fn nothing() -> Attributes
        ensures { result ≡ Judged.nothing }
    {
        Attributes {
            named: [false; MOST_UMASKS],
            some: false,
            alone: false,
            user: None,
            kernel: None,
            edge: None,
            invert: None,
            cmask: None,
        }
    }

    fn value(&self, m: Modifier) -> Option<u8>
        ensures { result ≡ Judged.value_given self.now (modifier_text m) }
    {
        match m {
            Modifier::User => self.user,
            Modifier::Kernel => self.kernel,
            Modifier::Edge => self.edge,
            Modifier::Invert => self.invert,
            Modifier::Cmask => self.cmask,
        }
    }

    fn with_value(self, m: Modifier, value: u8) -> Attributes
        ensures { result ≡ Judged.with_value self (modifier_text m) value }
    {
        let mut given = self;
        match m {
            Modifier::User => given.user = Some(value),
            Modifier::Kernel => given.kernel = Some(value),
            Modifier::Edge => given.edge = Some(value),
            Modifier::Invert => given.invert = Some(value),
            Modifier::Cmask => given.cmask = Some(value),
        }
        given
    }

    fn with_modifier(self, m: Modifier, value: Option<&[u8]>) -> Result<Attributes, NameFault>
        ensures { result ≡ Judged.modifier_given self (modifier_text m) (text_of value.entry) }
    {
        if self.value(m).is_some() {
            return Err(NameFault::AttrSet);
        }
        match value_of(m, value) {
            Some(n) => Ok(self.with_value(m, n)),
            None => Err(NameFault::AttrVal),
        }
    }

    fn with_mask(
        self,
        masks: &[UmaskRow],
        row: usize,
        value: Option<&[u8]>,
    ) -> Result<Attributes, NameFault>
        requires few { length masks.now ≤ MOST_UMASKS }
        requires there { row < length masks.now }
        ensures { result ≡ Judged.mask_given (map mask_text masks.now) self row
            (text_of value.entry) }
    {
        if self.named[row] {
            return Err(NameFault::AttrSet);
        }
        if value.is_some() {
            return Err(NameFault::AttrVal);
        }
        let alone = masks[row].alone;
        if self.some && (self.alone || alone) {
            return Err(NameFault::FeatComb);
        }
        let mut given = self;
        given.named[row] = true;
        given.some = true;
        given.alone = self.alone || alone;
        Ok(given)
    }

    // What is given with one attribute more, or that attribute's first fault.
    fn with(self, masks: &[UmaskRow], attribute: &[u8]) -> Result<Attributes, NameFault>
        requires { length masks.now ≤ MOST_UMASKS }
        ensures { result ≡ Judged.said_given (map mask_text masks.now) self
            (Names.said_of (map mask_text masks.now) (Split.attribute_of attribute.now)) }
    {
        let (name, value) = name_and_value(attribute);
        match meaning_of(masks, name) {
            Some(Meaning::Mask(row)) => self.with_mask(masks, row, value),
            Some(Meaning::Modifier(m)) => self.with_modifier(m, value),
            None => Err(NameFault::Attr),
        }
    }
}

// What stands before the first `=`, and what after it.
#[tactic(auto, unfolding(crate::specs::Split::attribute_of))]
fn name_and_value(attribute: &[u8]) -> (&[u8], Option<&[u8]>)
    ensures { Split.attribute result.0.now (text_of result.1) ≡ Split.attribute_of attribute.now }
{
    match cut_at(attribute, b"=") {
        Some((name, value)) => (name, Some(value)),
        None => (attribute, None),
    }
}

/// What all attributes give, or the fault of the first that has one in view of those before it.
pub fn given_by(masks: &[UmaskRow], attributes: Option<&[u8]>) -> Result<Attributes, NameFault>
    requires { length masks.now ≤ MOST_UMASKS }
    ensures { result ≡ Judged.all_given (map mask_text masks.now) Judged.nothing
        (Names.saids_of (map mask_text masks.now) (between_colons (text_of attributes.entry))) }
{
    let mut given = Attributes::nothing();
    let mut rest = attributes;
    while let Some(text) = rest {
        let (attribute, more) = first_part(text);
        given = given.with(masks, attribute)?;
        rest = more;
    }
    Ok(given)
}
