// Answers a sheet by its listing: the dates of its tasks, a late row, or a fault.
#![tactic(auto)]

mod answering;
mod arbiters;
mod memory;
mod named;
mod rows;
mod uniqueness;
mod writing;

pub use answering::answer_sheet;
pub use memory::OutOfMemory;
pub use uniqueness::sheets_have_one_listing;
