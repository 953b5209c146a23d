//! The command `init`: the files of a plant, and what they have.
#![tactic(auto)]

mod asked_hosts;
mod before;
mod cause;
mod configuration_text;
mod key_choice;
mod key_lines;
pub mod laws;
mod made;
mod making;
mod new_station;
mod old_plant;
mod place;
mod place_list;
mod plant_file;
mod reading_back;
mod same;

pub use before::before_text;
pub use cause::InitFault;
pub use key_choice::circuit_key;
pub use key_lines::key_text;
pub use made::{Made, NewFolder, NotMade, Thing};
pub use making::{Contents, PlantOrder, make_one, make_plant};
pub use new_station::{Habits, NewStation};
pub use old_plant::OldPlant;
pub use place::{StationHost, StationPlace, place_of};
pub use place_list::{check_member, places_of};
pub use plant_file::{FOLDER_MODE, PlantFile};
pub use reading_back::station_text;
