//! Tests of the lower crates, from `listed` to `exact_simplex`, by their public calls.
#![tactic(auto)]

#[cfg(test)]
mod tests;
