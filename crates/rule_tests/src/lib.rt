//! Tests of requests and of relayed data over public items alone, in a crate of their own, so that the crates that they
//! test are proved once. The library itself is empty.
#![tactic(auto)]

#[cfg(test)]
mod tests;
