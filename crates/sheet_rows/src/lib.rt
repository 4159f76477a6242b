// The rows of both sheets' record kinds (document 01, "Contract sheet" and "Program sheet"), and whether the fixed fields of a record are what its row
// says. What is made of them is in `sheet`.
#![tactic(auto)]

mod contract_rows; // a row for each record kind of a contract sheet
pub mod fixed_fields; // the fixed fields of a record
mod program_rows; // a row for each record kind of a program sheet
pub mod tables; // what a row says, and the row of each record kind
