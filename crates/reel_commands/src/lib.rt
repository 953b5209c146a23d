//! The commands `import` and `survey`: tapes of a reel, and how its frames come in them.
#![tactic(auto)]

mod around;
mod cause;
mod files;
mod importing;
mod outputs;
mod places;
mod report;
mod rows;
mod survey_text;
mod surveying;

pub use cause::ReelFault;
pub use files::{NotMade, TakenName, TapeFolder};
pub use importing::{Imported, Reel, import};
pub use report::{are_tapes, put_import};
pub use surveying::{Survey, Surveyed};
