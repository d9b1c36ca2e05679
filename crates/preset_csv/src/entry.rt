//! Entries of the preset table.
use crate::Def;

/// What a preset file says of a symbol for a cpu: nothing, that it is derived in a way that is not computed, or what it
/// is computed of.
#[derive(Drop)]
pub enum Entry {
    Missing,
    Uncomputed,
    Def(Def),
}
