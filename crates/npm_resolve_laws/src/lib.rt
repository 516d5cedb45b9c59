//! Laws of the resolver: a single wish is answered as npm would pick, and nothing is wrong in the lock file of a selection.
#![tactic(auto)]

mod lock_files;
mod picks;

pub use lock_files::{
    a_version_that_a_spec_allows_is_kept, each_dependency_of_a_selection_is_answered,
    flat_lock_files_have_no_problems, lock_files_of_selections_have_no_problems,
};
pub use picks::{one_wish_is_answered_as_picked, the_first_candidate_is_picked};
