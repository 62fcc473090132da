// Refusals: why a call was refused, which layer refused it, and at which place.
#![tactic(auto)]

pub mod cause;
pub mod layer;
pub mod refusal;

pub use cause::Cause;
pub use layer::Layer;
pub use refusal::Fault;
