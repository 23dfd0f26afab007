//! A store: two areas of a disk, one of which is active. It holds a snapshot of a table, and after it a log of what was
//! accepted since.
#![tactic(auto)]

mod areas;
mod error;
mod formatting;
mod front;
mod heads;
mod laws;
mod layout;
mod log;
mod open;
mod replay;
mod snapshots;
mod store;
mod superblock;

pub use error::{OpenError, StoreError};
pub use formatting::{FormatError, format, format_version1};
pub use laws::{
    a_store_at_rest_represents, an_image_has_one_table, an_image_has_one_version,
    version_2_is_opened_as_version_2, what_holds_nothing_is_not_opened,
};
pub use store::{Info, Opened, Store, StoreOpenError, WrittenAs};
pub use superblock::{LimitsError, least_area, limits};
