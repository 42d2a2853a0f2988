//! Tests of images, and of the lines that the program prints.
#![tactic(auto)]

#[cfg(test)]
mod tests;
