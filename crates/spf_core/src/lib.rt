//! The core: tiles of units, claimed and published by workers in any order that a job allows.
//!
//! It stands on the units, touches and frame law of spf_touch, and knows no thread. Upward it gives one contract:
//! whatever claims and publications come, the cells are those of the replayed history (`Replay`), and these are the effects
//! of the units of the published tiles in ascending number (`every_history`). Lists and an order that are sound for units stay
//! so where the elements go to other places (`renamed_jobs_are_sound`). A claim costs the tile's foot and all cells, a
//! publication its units too, and `State::can` the tiles before the claimed one.
#![tactic(auto)]

mod copied;
mod event;
mod foot;
mod histories;
mod job;
mod lent;
mod order;
mod past;
mod renamed;
mod serially;
mod state;
mod work;

pub use copied::Copied;
pub use event::Event;
pub use histories::every_history;
pub use job::Job;
pub use order::Order;
pub use renamed::renamed_jobs_are_sound;
pub use serially::serial;
pub use state::State;
