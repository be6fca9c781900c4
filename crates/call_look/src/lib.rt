// The calls that read the table and leave it as it is.
#![tactic(auto)]

pub use numbers::{Live, LiveCounts, MemberCount, census_step, members_step};
pub use resolving::{
    Resolution, Resolved, resolve_filtered_bytes_step, resolve_filtered_step, resolve_step,
};
pub use routing::{Stop, StopPlace, next_stop_step};

mod numbers;
mod resolving;
mod routing;
