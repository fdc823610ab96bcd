//! What is done with files for a request that is decided.
use auth_grammar::Octets;
use auth_io::{Ending, FileAnswer};

/// What a verdict may call for. Contracts alone have it.
#[derive(Drop)]
pub enum FileOperation {
    /// To read this file.
    ReadFile { name: Octets },
    /// To make these bytes this file's whole content.
    ReplaceFile { name: Octets, bytes: Octets },
}

/// An operation that was done, with what came of it. Contracts alone have it.
#[derive(Drop)]
pub enum FileEvent {
    /// The file of this name was read.
    FileRead {
        name: Octets,
        answer: FileAnswer,
    },
    /// The file of this name was to have these bytes as its whole content, and the call ended so.
    FileReplaced {
        name: Octets,
        bytes: Octets,
        ending: Ending,
    },
}
