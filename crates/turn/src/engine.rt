//! A server over a store, which sends nothing before what it rests on is on the disk.

pub use turn_disk::{
    CrashOutcome, DeviceError, Disk, FileDisk, FileError, Idle, Meanwhile, MemoryDisk, Start,
    Unknown,
};
pub use turn_engine::{
    Beside, CommitError, Relayed, Server, ServerOpenError, SubmitError, Unanswered, WhileCommitting,
};
pub use turn_record::Version;
pub use turn_store::{
    FormatError, Info, LimitsError, OpenError, Opened, Store, StoreError, StoreOpenError,
    WrittenAs, format, least_area, limits,
};
