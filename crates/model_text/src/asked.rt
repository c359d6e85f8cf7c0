//! What a text asks.

use eb_infer::Typing;
use eb_model::EbModel;
use eb_term::Problem;
use eb_value::Scope;

/// How many queries a text is to have.
#[derive(Clone, Copy, Debug, PartialEq, Eq)]
pub enum Wanted {
    /// At most 1,000.
    Any,
    One,
}

/// What the queries of a text ask: the model with the types of its identifiers and marks, the scope, and how many queries there
/// are. Each is `axioms`, so they have one problem, and none where there is no query.
#[derive(Drop)]
pub struct Asked {
    pub model: EbModel,
    pub types: Typing,
    pub scope: Scope,
    pub times: u64,
    pub problem: Option<Problem>,
}
