//! What a line does: its next act, the hazards that an act meets, a skip by a record, and the replay of a record.
#![tactic(auto)]

mod acting;
mod acts;
mod hazard;
mod line;
mod list;
mod next;
mod own;
mod replay;
mod skipping;
mod text;

pub use acting::act;
pub use hazard::hazard_of;
pub use line::{line_state, recorded};
pub use replay::is_true;
pub use skipping::{can_skip, skip};
