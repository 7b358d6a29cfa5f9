//! The text of a workload: what it means, its first bad line, and its canonical form.
#![tactic(auto)]

mod calls;
mod declared;
mod fault;
mod forms;
mod heads;
mod lines;
mod load;
mod parse;
mod print;
mod quick;
mod reading;
mod spelled;
mod words;

pub use declared::parse_declarations;
pub use fault::{LineRefusal, TextCause, TextFault, TextRefusal};
pub use heads::{Head, StepHead};
pub use load::{Declarations, Turn, Workload};
pub use parse::parse_workload;
pub use print::{print_declarations, print_workload};
pub use reading::{Begun, Reading};
pub use spelled::{known_table, literal, whole};
