//! A server over a disk in memory that is stopped, crashed and opened again as a list of steps says, and lives: what comes
//! of such lists over any number of openings.
#![tactic(auto)]

mod faulty;
mod laws;
mod player;
mod step;

pub use faulty::Faulty;
pub use laws::{
    calls_make_lives, every_life_is_one_run, repeats_get_the_same, servers_go_on_reserving_ports,
};
pub use player::{MemoryServer, Player};
pub use step::{Action, Effect};
