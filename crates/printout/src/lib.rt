// The printout (the standard, "Line and bench").
#![tactic(auto)]

pub mod line;
pub mod placed;
pub mod print;
pub mod text;
pub mod words;
