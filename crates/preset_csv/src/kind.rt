//! Kinds of presets, and the derived types that a preset file states.

ghost use Rattle.std.specs.Prelude.{◌≡◌, Some};
ghost use Rattle.preset_csv.specs.Kinds as Kinds;

/// How the value of a preset that is computed comes from its native events: the count itself, their sum, the first less
/// the others, or a formula. Source: papi_events.csv.
#[derive(Clone, Copy)]
pub enum Kind {
    NotDerived,
    Add,
    Sub,
    Postfix,
}

/// The derived types of a preset file. Those after `Postfix` are not computed. Source: papi_events.csv.
#[derive(Clone, Copy)]
pub enum DerivedType {
    NotDerived,
    Add,
    Sub,
    Postfix,
    Infix,
    Ps,
    AddPs,
    Cmpd,
}

/// The name of a kind's derived type, as a preset file has it.
pub fn kind_text(kind: Kind) -> &'static str
    ensures { result.now ≡ Kinds.kind_text kind }
{
    match kind {
        Kind::NotDerived => "NOT_DERIVED",
        Kind::Add => "DERIVED_ADD",
        Kind::Sub => "DERIVED_SUB",
        Kind::Postfix => "DERIVED_POSTFIX",
    }
}

/// The derived type of this name, compared exactly, and `None` if no type has it.
#[tactic(auto, unfolding(crate::specs::Kinds::type_of))]
pub fn type_of(name: &[u8]) -> Option<DerivedType>
    ensures { result ≡ Kinds.type_of name.now }
{
    if name == b"NOT_DERIVED".as_slice() {
        Some(DerivedType::NotDerived)
    } else if name == b"DERIVED_ADD".as_slice() {
        Some(DerivedType::Add)
    } else if name == b"DERIVED_SUB".as_slice() {
        Some(DerivedType::Sub)
    } else if name == b"DERIVED_POSTFIX".as_slice() {
        Some(DerivedType::Postfix)
    } else if name == b"DERIVED_INFIX".as_slice() {
        Some(DerivedType::Infix)
    } else if name == b"DERIVED_PS".as_slice() {
        Some(DerivedType::Ps)
    } else if name == b"DERIVED_ADD_PS".as_slice() {
        Some(DerivedType::AddPs)
    } else if name == b"DERIVED_CMPD".as_slice() {
        Some(DerivedType::Cmpd)
    } else {
        None
    }
}

/// Whether a row of this derived type has a formula before its natives.
pub fn has_formula(derived_type: DerivedType) -> bool
    ensures { result ≡ Kinds.has_formula (Some derived_type) }
{
    matches!(derived_type, DerivedType::Postfix | DerivedType::Infix)
}
