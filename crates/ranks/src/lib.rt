// Predictions with a rank for each component, packed into numbers, and the queue as a rising list of these numbers.
#![tactic(auto)]

pub mod daughters;
pub mod moves;
pub mod prediction;
pub mod queue;
pub mod step;
pub mod table;
