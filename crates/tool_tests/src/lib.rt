//! Tests of the tools that need code of their own. The rows that need none stand in `examples/rows`.
#![tactic(auto)]

#[cfg(test)]
mod tests;
