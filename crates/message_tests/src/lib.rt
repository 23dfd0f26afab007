//! Tests of messages and what they are made of, over the public items of the crates below.
#![tactic(auto)]

#[cfg(test)]
mod tests;
