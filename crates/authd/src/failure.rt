//! Why the program ends before its work is done.
ghost use Rattle.std.specs.Prelude.{◌≡◌, ◌++◌, ◌∷◌, [], IfOk, OnOk, decimal};
ghost use Rattle.authd.specs.Endings.{line_of, numbered_line, refusal_line, status_of};

use crate::printing::push_number;
use auth_grammar::{Octets, OutOfMemory};
use auth_io::WriteError;
use connection_loop::ServeError;
use cred_store::StoreError;
use spaces_map::SpacesError;
use std::alloc::Global;
use thiserror::Error;

/// Why the program ends before its work is done.
#[derive(Clone, Copy, Debug, PartialEq, Eq, Error)]
pub enum Failure {
    /// The words of the command line are none that the program knows.
    #[error("the words are no command")]
    Usage,
    #[error(transparent)]
    Refused(Refusal),
    #[error(transparent)]
    Fault(Fault),
    /// The input ended inside the message that begins behind `at` bytes.
    #[error("the input ended inside the message that begins behind {at} bytes")]
    Truncated { at: u64 },
    /// The table of nonces takes no more calls.
    #[error("the table of nonces takes no more calls")]
    Worn,
    #[error("out of memory")]
    OutOfMemory,
}

/// Why an input or a file is refused.
#[derive(Clone, Copy, Debug, PartialEq, Eq, Error)]
pub enum Refusal {
    /// The input is longer than 16,384 bytes.
    #[error("too long")]
    TooLong,
    /// The text is not of the grammar: none that is begins with more than its first `at` bytes.
    #[error("not grammar at {at}")]
    NotGrammar { at: u32 },
    /// A name comes a second time in one item, behind `at` bytes.
    #[error("twice at {at}")]
    Twice { at: u32 },
    /// The file of the store isn't there.
    #[error("store absent")]
    StoreAbsent,
    /// The file of the spaces isn't there.
    #[error("spaces absent")]
    SpacesAbsent,
    /// The file of htdigest isn't there.
    #[error("htdigest absent")]
    HtdigestAbsent,
    /// A file is longer than 16,777,216 bytes.
    #[error("file too long")]
    FileTooLong,
    /// The space of `/` isn't there, or needs no user.
    #[error("not for a proxy")]
    NotForProxy,
    /// This line of the store is its first faulty one.
    #[error("store line {line}")]
    StoreLine { line: u32 },
    /// This line of the spaces is their first faulty one.
    #[error("spaces line {line}")]
    SpacesLine { line: u32 },
    /// This line of the text of htdigest is its first faulty one.
    #[error("htdigest line {line}")]
    HtdigestLine { line: u32 },
}

/// What failed. Its count of faults has risen.
#[derive(Clone, Copy, Debug, PartialEq, Eq, Error)]
pub enum Fault {
    /// A read of the link.
    #[error("a read of the link failed")]
    Read,
    /// A write of the link.
    #[error("a write of the link failed")]
    Write,
    /// A read or a replace of a file.
    #[error("a call of the files failed")]
    File,
    /// A draw of random words.
    #[error("a draw of random words failed")]
    Draw,
}

impl From<OutOfMemory> for Failure {
    ghost use Rattle.authd.specs.declared.failure.Failure.TheVariants.{OutOfMemory};

    ghost from_gives = { λ _ failure. failure ≡ OutOfMemory };

    fn from(_error: OutOfMemory) -> Failure {
        Failure::OutOfMemory
    }
}

impl From<WriteError> for Failure {
    ghost use Rattle.authd.specs.Causes.{write_failure};

    ghost from_gives = { λ error failure. failure ≡ write_failure error };

    fn from(error: WriteError) -> Failure {
        match error {
            WriteError::Failed => Failure::Fault(Fault::Write),
            WriteError::OutOfMemory => Failure::OutOfMemory,
        }
    }
}

impl From<StoreError> for Failure {
    ghost use Rattle.authd.specs.Causes.{store_failure};

    ghost from_gives = { λ error failure. failure ≡ store_failure error };

    fn from(error: StoreError) -> Failure {
        match error {
            StoreError::BadLine { line, .. }
            | StoreError::Repeated { line }
            | StoreError::Unsorted { line } => Failure::Refused(Refusal::StoreLine { line }),
            StoreError::BadName => Failure::Usage,
            StoreError::OutOfMemory => Failure::OutOfMemory,
        }
    }
}

impl From<SpacesError> for Failure {
    ghost use Rattle.authd.specs.Causes.{spaces_failure};

    ghost from_gives = { λ error failure. failure ≡ spaces_failure error };

    fn from(error: SpacesError) -> Failure {
        match error {
            SpacesError::BadLine { line } | SpacesError::SamePrefix { line } => {
                Failure::Refused(Refusal::SpacesLine { line })
            }
            SpacesError::OutOfMemory => Failure::OutOfMemory,
        }
    }
}

impl From<ServeError> for Failure {
    ghost use Rattle.authd.specs.Causes.{serve_failure};

    ghost from_gives = { λ error failure. failure ≡ serve_failure error };

    fn from(error: ServeError) -> Failure {
        match error {
            ServeError::Truncated { at } => Failure::Truncated { at },
            ServeError::ReadFault => Failure::Fault(Fault::Read),
            ServeError::WriteFault => Failure::Fault(Fault::Write),
            ServeError::RandomFault => Failure::Fault(Fault::Draw),
            ServeError::Worn { .. } => Failure::Worn,
            ServeError::OutOfMemory => Failure::OutOfMemory,
        }
    }
}

impl Failure {
    /// The exit status.
    pub fn status(self) -> u8
        ensures { result ≡ status_of self }
    {
        match self {
            Failure::Usage => 2,
            Failure::Refused(_) => 3,
            Failure::Fault(_) => 4,
            Failure::Truncated { .. } => 5,
            Failure::Worn => 6,
            Failure::OutOfMemory => 7,
        }
    }

    /// The line that tells the failure, or nothing.
    pub fn line(self, alloc: Global) -> Result<Octets, OutOfMemory>
        ensures { IfOk result (λ line. line ≡ line_of self) }
    {
        match self {
            Failure::Usage => Octets::of(alloc, b"usage: authd COMMAND WORDS\n"),
            Failure::Refused(refusal) => refusal.line(alloc),
            Failure::Truncated { at } => numbered_line(alloc, b"truncated at ", at),
            Failure::Fault(_) | Failure::Worn | Failure::OutOfMemory => Ok(Octets::new(alloc)),
        }
    }
}

impl Refusal {
    /// The line that tells the refusal.
    pub fn line(self, alloc: Global) -> Result<Octets, OutOfMemory>
        ensures { IfOk result (λ line. line ≡ refusal_line self) }
    {
        match self {
            Refusal::TooLong => Octets::of(alloc, b"too long\n"),
            Refusal::NotGrammar { at } => numbered_line(alloc, b"not grammar at ", at as u64),
            Refusal::Twice { at } => numbered_line(alloc, b"twice at ", at as u64),
            Refusal::StoreAbsent => Octets::of(alloc, b"store absent\n"),
            Refusal::SpacesAbsent => Octets::of(alloc, b"spaces absent\n"),
            Refusal::HtdigestAbsent => Octets::of(alloc, b"htdigest absent\n"),
            Refusal::FileTooLong => Octets::of(alloc, b"file too long\n"),
            Refusal::NotForProxy => Octets::of(alloc, b"not for a proxy\n"),
            Refusal::StoreLine { line } => numbered_line(alloc, b"store line ", line as u64),
            Refusal::SpacesLine { line } => numbered_line(alloc, b"spaces line ", line as u64),
            Refusal::HtdigestLine { line } => {
                numbered_line(alloc, b"htdigest line ", line as u64)
            }
        }
    }
}

/// Words and a number on a line.
pub(crate) fn numbered_line(alloc: Global, words: &[u8], number: u64) -> Result<Octets, OutOfMemory>
    ensures { IfOk result (λ line. line ≡ numbered_line words.now number) }
{
    let mut line = Octets::of(alloc, words)?;
    push_number(&mut line, number)?;
    line.push(b'\n')?;
    Ok(line)
}
