//! Servers over a disk in memory that are stopped, crashed and opened again, as a list of steps or as a text.

pub use turn_player::{Action, Effect, MemoryServer, Player};
pub use turn_scenario::{Report, ScenarioError, event_text, replay};
