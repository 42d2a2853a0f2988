//! Tests of requests and their responses, and of connections over the loopback.
#![tactic(auto)]

#[cfg(test)]
mod tests;
