//! What the commands ask of the files that saved rows lie in.
#![tactic(auto)]

mod causes;
mod closing;
mod creating;
mod files;
mod found;
mod standing;

pub use causes::{RefusedRows, RowsCause};
pub use closing::close_rows;
pub use creating::{NewRows, create_rows};
pub use files::RowFiles;
pub use found::{
    AT_REST, FoundFile, FoundLog, HEAD_LEN, IN_USE, MARK_AT, Mark, file_of, making_refusal,
    opening_refusal,
};
pub use standing::{FoundId, FoundPair, PairIds, Standing, kept_refusal, opened_pair, standing_of};
