//! The table of preset events: their symbols, codes and descriptions.
//!
//! Symbols and codes are those of PAPI's list of presets, PAPI_presets(3). The choice of rows and the descriptions are this project's own.

ghost use Rattle.std.specs.Prelude.{◌≡◌, ◌<◌, IfSome};
ghost use Rattle.preset_csv.specs.Symbols as Symbols;

use table_rows::printable_text;

// tools/make_presets: begin
/// How many rows the table has.
pub const PRESETS: u32 = 26;

// The symbol and the code in a row, which are those of PAPI's list.
#[tactic(auto, unfolding(crate::specs::Symbols::preset_rows, crate::specs::Symbols::symbol_at, crate::specs::Symbols::code_at))]
fn preset_at(row: u32) -> (&'static str, u32)
    requires { row < PRESETS }
    ensures symbol { result.0.now ≡ Symbols.symbol_at row }
    ensures code { result.1 ≡ Symbols.code_at row }
{
    match row {
        0 => ("PAPI_L1_DCM", 0x80000000),
        1 => ("PAPI_L1_ICM", 0x80000001),
        2 => ("PAPI_L2_DCM", 0x80000002),
        3 => ("PAPI_L2_ICM", 0x80000003),
        4 => ("PAPI_L1_TCM", 0x80000006),
        5 => ("PAPI_L2_TCM", 0x80000007),
        6 => ("PAPI_L3_TCM", 0x80000008),
        7 => ("PAPI_TLB_DM", 0x80000014),
        8 => ("PAPI_TLB_IM", 0x80000015),
        9 => ("PAPI_L1_LDM", 0x80000017),
        10 => ("PAPI_L1_STM", 0x80000018),
        11 => ("PAPI_BR_UCN", 0x8000002a),
        12 => ("PAPI_BR_CN", 0x8000002b),
        13 => ("PAPI_BR_TKN", 0x8000002c),
        14 => ("PAPI_BR_NTK", 0x8000002d),
        15 => ("PAPI_BR_MSP", 0x8000002e),
        16 => ("PAPI_BR_PRC", 0x8000002f),
        17 => ("PAPI_TOT_INS", 0x80000032),
        18 => ("PAPI_LD_INS", 0x80000035),
        19 => ("PAPI_SR_INS", 0x80000036),
        20 => ("PAPI_BR_INS", 0x80000037),
        21 => ("PAPI_RES_STL", 0x80000039),
        22 => ("PAPI_TOT_CYC", 0x8000003b),
        23 => ("PAPI_LST_INS", 0x8000003c),
        24 => ("PAPI_FP_OPS", 0x80000066),
        _ => ("PAPI_REF_CYC", 0x8000006b),
    }
}

/// The description in a row below [`PRESETS`].
#[tactic(auto, unfolding(crate::specs::Symbols::preset_rows, crate::specs::Symbols::description_at))]
pub fn preset_text(row: u32) -> &'static str
    requires { row < PRESETS }
    ensures description { result.now ≡ Symbols.description_at row }
{
    match row {
        0 => "Level 1 data cache misses",
        1 => "Level 1 instruction cache misses",
        2 => "Level 2 data cache misses",
        3 => "Level 2 instruction cache misses",
        4 => "Level 1 cache misses",
        5 => "Level 2 cache misses",
        6 => "Level 3 cache misses",
        7 => "Data translation lookaside buffer misses",
        8 => "Instruction translation lookaside buffer misses",
        9 => "Level 1 load misses",
        10 => "Level 1 store misses",
        11 => "Unconditional branches",
        12 => "Conditional branches",
        13 => "Conditional branches taken",
        14 => "Conditional branches not taken",
        15 => "Conditional branches mispredicted",
        16 => "Conditional branches predicted",
        17 => "Instructions completed",
        18 => "Load instructions",
        19 => "Store instructions",
        20 => "Branch instructions",
        21 => "Cycles stalled on any resource",
        22 => "Total cycles",
        23 => "Load and store instructions",
        24 => "Floating point operations",
        _ => "Reference clock cycles",
    }
}
// tools/make_presets: end

/// How many rows the table has.
pub fn preset_count() -> u32
    ensures count { result ≡ PRESETS }
{
    PRESETS
}

/// The symbol in a row below [`PRESETS`].
pub fn preset_symbol(row: u32) -> &'static str
    requires { row < PRESETS }
    ensures symbol { result.now ≡ Symbols.symbol_at row }
{
    preset_at(row).0
}

/// The code in a row below [`PRESETS`], which has bit 31 set.
pub fn preset_code(row: u32) -> u32
    requires { row < PRESETS }
    ensures code { result ≡ Symbols.code_at row }
{
    preset_at(row).1
}

/// The row of a symbol, compared exactly, which is below [`PRESETS`], and `None` if the text is not a symbol of the table.
pub fn preset_row(symbol: &str) -> Option<u32>
    ensures row { result ≡ Symbols.row_of symbol.now }
    ensures within { IfSome result (λ row. row < PRESETS) }
{
    for row in 0..PRESETS {
        if preset_symbol(row) == symbol {
            return Some(row);
        }
    }
    None
}

/// The row of a symbol, compared exactly, which is below [`PRESETS`], and `None` if the bytes are not a symbol of
/// the preset table.
pub fn symbol_row(symbol: &[u8]) -> Option<u32>
    ensures row { result ≡ Symbols.row_of symbol.now }
    ensures within { IfSome result (λ row. row < PRESETS) }
{
    match printable_text(symbol) {
        Some(text) => preset_row(text),
        None => None,
    }
}
