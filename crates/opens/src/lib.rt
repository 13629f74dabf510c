// The openings of add and pop (document 01, "Rules of the calls", "Step by step"): the tests of the caller's list, the private update of an add, direct and
// indirect, and pop's comparison with the list that was added.
#![tactic(auto)]

mod comparison;
mod given;
mod list_tests;
mod opening;

pub use comparison::matches;
pub use given::{buffer_at, copy_given};
pub use list_tests::{full, in_order, none_empty};
pub use opening::open_add;
