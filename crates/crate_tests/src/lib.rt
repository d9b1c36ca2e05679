//! Tests of the crates below the tools: the outside in memory, tables, maps, presets, formulas, scripts, soaks, streams, sessions, workers and
//! plans.
#![tactic(auto)]

#[cfg(test)]
mod tests;
