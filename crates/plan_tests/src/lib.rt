//! Tests of the way from a platform file to its plan: platforms, schedules, programmes, tables and plans.
#![tactic(auto)]

#[cfg(test)]
mod tests;
