//! Tests of sockets over public items alone, in a crate of their own, so that the crate that they test is proved once. The library
//! itself is empty.
#![tactic(auto)]

#[cfg(test)]
mod tests;
