// The lock discipline and the atomicities of a station program (the standard, "Lock discipline", "Atomicities").
#![tactic(auto)]

pub mod access_rule;
pub mod effect;
pub mod frame;
pub mod judging;
pub mod lock_set;
#[cfg(test)]
mod tests;
pub mod walk;
