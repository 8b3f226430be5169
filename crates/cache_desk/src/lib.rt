//! What operators ask of a cache while it runs.
//!
//! `Desk` answers the line of each operator between two turns of a `CacheLoop`, which it only looks at: it shows the clients,
//! the versions, the payloads and the list, and says which reading of the list is asked for (`specs/Readings.antt`): that it is
//! read at once, or that it is and the guards are set aside for the list that they refused, which is refused unless they
//! refused it when it was read last. Each line is answered to the operator who sent it, once; a reading is asked for by its
//! word alone, its outcome is told to all who asked for it and to nobody else, and `stop` alone ends the program
//! (`specs/Desks.antt`). One reading a second is asked for, and those who ask meanwhile wait for the next. A large table goes
//! out piece by piece, each going on behind the row at which the one before it ended. Where there are no operators nothing is
//! asked for. What rows say is shown by tests.
#![tactic(auto)]

mod clerk;
mod desk;
mod laws;
mod line;
mod reading;
mod tables;

pub use desk::Desk;
pub use laws::desks_stop_by_the_word_stop;
pub use reading::Reading;
pub use tables::{ListState, Scene};
