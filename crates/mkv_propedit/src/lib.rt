#![tactic(auto)]

//! The commands that change a file in place: `propedit` sets properties, `reindex` rewrites the index, and `recover`
//! completes such a change after an interruption.

mod carrying;
mod change;
mod changing;
mod editing;
mod recover_telling;
mod recovering;
mod reindexing;
mod telling;

pub use editing::propedit_of;
pub use recovering::recover_of;
pub use reindexing::reindex_of;
