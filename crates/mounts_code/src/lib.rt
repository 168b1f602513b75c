// Asks for mount sheets, adds them, and gives a measured shift its sign. Stored sheets are bytes with a count beside them, since C lends them
// so: no memory is fetched, and there may be room behind the last.
#![tactic(auto)]

mod adding;
mod asking;
mod records;
mod signs;

pub use adding::add;
pub use asking::ask;
pub use records::sheet_in;
pub use signs::turn;
