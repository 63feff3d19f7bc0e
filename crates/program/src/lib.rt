// The station program as a file: its fields, variable records, instructions and nesting (the standard, "The file").
#![tactic(auto)]

pub mod cursor;
pub mod field_limits;
pub mod instruction;
pub mod layout;
pub mod limits;
pub mod nesting;
pub mod offence;
mod op_codes;
pub mod refusal;
pub mod sections;
pub mod stack;
pub mod variable;
pub mod walk;
