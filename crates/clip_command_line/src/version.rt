//! The version of pressclip.

/// The version, as the file `VERSION` at the top of the repository has it; `service/test` compares what programs tell.
pub const VERSION: &str = "1.0.0";
