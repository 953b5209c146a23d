//! What a station that stays up tells of itself in the status file of its plant: a record, its text, and whether it is well; what is kept in
//! mind for it, and when it is written.
#![tactic(auto)]

mod ages;
mod clock;
mod draft;
mod file;
mod health;
mod instant;
mod keeper;
mod last_heard;
mod moment;
mod numbers;
mod owner;
mod reading;
mod status;
mod under_way;
mod words;
mod writing;

pub use ages::{Ages, ages_of};
pub use clock::seconds_now;
pub use file::{NoStatus, StatusFile};
pub use health::{Health, LONG_MISSING, LONG_UNHEARD, OLD, health_of};
pub use keeper::{Keeper, PlantCounts};
pub use moment::Moment;
pub use owner::{StatusOwner, may_be_replaced, owner_text};
pub use reading::{Unread, read};
pub use status::{
    Busy, HeardMember, Missing, NumberSpan, OfferCounts, Purpose, Released, StationId, Status,
};
pub use writing::text_of;
