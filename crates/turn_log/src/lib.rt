//! What a server's log has: which responses, which lines of a second, why credentials didn't pass, how much was relayed, and names as
//! text.
#![tactic(auto)]

mod cause;
mod challenged;
mod counts;
mod dropped;
mod limit;
mod log;
mod name;
mod peers;
mod response;
mod slow_commit;
mod tally;
mod traffic;

pub use cause::{
    Cause, cause_of, has_credentials, has_passed, refused_credentials_have_not_passed,
};
pub use challenged::Challenged;
pub use counts::{About, Counted, Room, Subject};
pub use dropped::DroppedCount;
pub use limit::{Line, LineLimit, peers_left_out, strangers_hide_no_line_of_a_user};
pub use log::{Log, NOBODY};
pub use name::{CutName, ShownName};
pub use peers::NamedPeers;
pub use response::{Response, response_of};
pub use slow_commit::is_slow;
pub use tally::Tally;
pub use traffic::Traffic;
