//! Tests of readers of texts and lists, and of a desk's decisions.
#![tactic(auto)]

#[cfg(test)]
mod tests;
