// The text of the bench program: decimals read byte by byte, what they ask for, and lines of numbers printed.
#![tactic(auto)]

pub mod printer;
pub mod reader;
pub mod request;
