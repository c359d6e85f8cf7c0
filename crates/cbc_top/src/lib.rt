//! The whole program behind its words: one call, `run`.
//!
//! The definitions that its contract cites stand in `specs/`: the model's files (`ModelFiles`), the files that are opened (`Opening`)
//! and the run (`Run`). What only private functions cite stands in `specs/steps`.
#![tactic(auto)]

mod model_files;
mod stop;
mod top;

pub use cbc_answers::Status;
pub use top::run;
