//! Tests of the texts that the program reads and writes: certificates, plans and words.
#![tactic(auto)]

#[cfg(test)]
mod tests;
