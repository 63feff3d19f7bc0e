// The step machine (the standard, "The step machine").
#![tactic(auto)]

pub mod counts;
pub mod moves;
pub mod prepare;
pub mod run;
pub mod running;
pub mod signed;
pub mod state_bytes;
pub mod thread;
