//! Sheet tables of covers, positions in a list of them, and spots: positions in a component of a space.
#![tactic(auto)]

mod laws;
mod position;
mod spot;
mod table;

pub use laws::{position_is_spelled, spot_is_spelled};
pub use position::{Position, PositionFault};
pub use spot::Spot;
pub use table::Table;
