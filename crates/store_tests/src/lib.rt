//! Tests of `turn_disk`, `turn_journal`, `turn_record` and `turn_store`, in a crate of their own, so that those four are proved once.
#![tactic(auto)]

#[cfg(test)]
mod tests;
