//! The sizes of files: docs/FORMATS.md.

/// How many bytes a unit file or a preset file has at most.
pub const TABLE_BYTES: usize = 1_048_576;

/// How many bytes a script has at most.
pub const SCRIPT_BYTES: usize = 8_388_608;
