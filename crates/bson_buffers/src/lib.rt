//! Documents judged, cut and recast, and shapes compared, from slices into buffers: slices that the caller gives. It is what the C library offers, in Rattle.
#![tactic(auto)]

mod asking;
mod buffer;
mod checking;
mod differing;
mod expected;
mod finding;
mod listed;
mod listing;
mod migrating;
mod reason;
mod recasting;
mod refusal;
mod report;
mod status;

pub use checking::check_shape;
pub use differing::differences_into;
pub use finding::{Found, document_at};
pub use listed::migrate_and_list;
pub use migrating::migrate_into;
pub use recasting::recast_into;
pub use refusal::Refusal;
pub use report::{MigrationReport, Report};
pub use status::Status;
