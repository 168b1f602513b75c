// The MACROBLOCK commands of one row of the picture, judged one behind the other at speed. A command that the tests here do not
// take at once is left to the judge of single commands.
#![tactic(auto)]

mod after;
mod looking;
mod row;
mod stepping;
mod words;

pub use row::judge_row;
