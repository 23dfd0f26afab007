//! Tests of the program by public items alone, in a crate of their own, so that its library is proved once. This library is
//! empty.
#![tactic(auto)]

#[cfg(test)]
mod tests;
