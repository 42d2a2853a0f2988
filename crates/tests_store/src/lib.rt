//! Tests of desks over a store in memory.
#![tactic(auto)]

#[cfg(test)]
mod tests;
