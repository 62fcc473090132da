// Runs: a run reads the symbols of pieces one after another, and hands over to a sink what is certain of their code.
#![tactic(auto)]

mod book;
pub mod calls;
pub mod finished;
mod giving;
pub mod limits;
pub mod performing;
pub mod run;
mod state;

pub use calls::{Answer, Call};
pub use finished::Finished;
pub use limits::LENGTH_LIMIT;
pub use performing::perform;
pub use run::Run;
