// The cases of the conformance program: what each reads after its number, the call that it makes and the line that it writes.
#![tactic(auto)]

pub mod acceptance_case;
pub mod alternatives_case;
pub mod compile_case;
pub mod milliseconds_case;
pub mod sheet_case;
pub mod table_case;
pub mod why_case;
pub mod within_case;
