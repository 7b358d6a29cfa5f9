//! The core split over a table: shards, outboxes and anchors in parts, each with its turn; places, persisted positions and the stop in words; the rest in what each seat knows.
#![tactic(auto)]

mod agrees;
mod anchors;
mod asks;
mod clerk;
mod clerk_gives;
mod closes;
mod desk;
mod joins;
mod keeps;
mod kept;
mod laws;
mod manager;
mod manager_gives;
mod mark;
mod name;
mod opens;
mod own_records;
mod peeks;
mod resumes;
mod room;
mod seat;
mod splits;
mod stops;
mod work;
mod worker;
mod worker_gives;

pub use desk::Desk;
pub use kept::Kept;
pub use laws::{own_calls, own_committed, own_keys, own_pieces, own_rows, own_vectors};
pub use mark::Mark;
pub use name::{PartName, Role};
pub use own_records::OwnRecords;
pub use room::Room;
pub use seat::{ClerkSeat, Head, ManagerSeat, Stock, Work, WorkerSeat};
pub use work::Acted;
