//! What C calls: documents judged, cut and recast, and shapes compared, from slices into buffers that the caller gives. `c/tbson.h` declares it.
//!
//! A slice crosses as a pointer and a length, an `alloc` not at all, and a status as its number. No call asks anything of its caller beyond that, and no
//! memory passes the border.
#![tactic(auto)]

mod check;
mod differences;
mod document;
mod migrate;
mod migrate_and_list;
mod recast;
mod report;
mod version;

pub use check::tbson_check_shape;
pub use differences::tbson_differences;
pub use document::tbson_next_document;
pub use migrate::tbson_migrate;
pub use migrate_and_list::tbson_migrate_and_list;
pub use recast::tbson_recast;
pub use report::{MigrationReport, NextDocument, Report};
pub use version::tbson_version;
