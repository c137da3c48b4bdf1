//! Callers of the libraries whose contracts are proved from the contracts of what they call.
//! docs/CALLING.md quotes them.

pub mod keep_allowed;
pub mod links;
pub mod move_last;
pub mod page_with_head;
pub mod read_again;
