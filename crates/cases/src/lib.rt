// The second program's records (second/README.md): how they are read, filled, digested and tallied, for each program that runs them.
// The functions are proved safe and ending and promise no more but a bound or a length: a wrong one shows as a case that differs.
#![tactic(auto)]

pub mod digest;
pub mod file;
pub mod fill;
pub mod record;
pub mod rooms;
pub mod state;
pub mod tally;
