//! What a listener said.
use std::sync::ArcStr;

/// What a listener said of an alert. Its texts are shared.
#[derive(Debug, Drop)]
pub struct Note {
    /// The name of the listener.
    pub listener: ArcStr,
    /// The id of the query.
    pub query: ArcStr,
    /// What was said.
    pub text: ArcStr,
}
