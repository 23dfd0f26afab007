//! The lines of events that no text of a scenario comes to: a store that others changed, and the last generation.

use std::test::Fail;
use turn_engine::CommitError;
use turn_player::Effect;
use turn_scenario::event_text;
use turn_store::OpenError;

const EVENTS: [(Effect, &str); 8] = [
    (Effect::NotOpened(OpenError::Device), "device"),
    (Effect::NotOpened(OpenError::Memory), "memory"),
    (Effect::NotOpened(OpenError::NotAStore), "not a store"),
    (Effect::NotOpened(OpenError::LimitsDiffer), "limits differ"),
    (Effect::NotOpened(OpenError::Damaged(302)), "damaged 302"),
    (Effect::Failed(CommitError::Device), "device"),
    (Effect::Failed(CommitError::Worn), "worn"),
    (Effect::Failed(CommitError::Stopped), "stopped"),
];

#[test]
fn each_fault_of_an_opening_and_of_a_commit_has_a_line(rt: HostRuntime) -> Result<(), Fail> {
    for (event, text) in &EVENTS {
        let found = event_text(rt.alloc(), event)?;
        assert_eq!(rt; found.as_str(), *text);
    }
    Ok(())
}
