//! Files by their names.
ghost use Rattle.std.specs.Prelude.{◌≡◌, ◌≤◌, ℕ, List, [], ◌∷◌, Option};

use auth_grammar::Octets;

/// What reading a file answers.
#[derive(Drop)]
pub enum FileAnswer {
    Found(Octets),
    Absent,
    /// The file is longer than the limit.
    TooLarge,
    /// The count of file faults has risen.
    Failed,
    OutOfMemory,
}

/// What replacing a file answers.
#[derive(Clone, Copy, Debug, PartialEq, Eq)]
pub enum Replaced {
    Done,
    /// The file is as it was before or as at Done, and the count of file faults has risen.
    Failed,
    /// The file is as it was before.
    OutOfMemory,
}

/// How a call of files ended. Contracts alone know which failure it was.
#[derive(Clone, Copy, Debug, PartialEq, Eq)]
pub enum Ending {
    Well,
    /// It failed, and the contents are as before.
    FailedBefore,
    /// It failed, and the contents are as if it had gone well.
    FailedDone,
}

/// Files by their names: what they hold and what was asked of them, where that is told.
/// An object that reads files holds its allocator.
pub trait Files {
    ghost use Rattle.auth_io.specs.declared.files.Ending.{Ending};
    ghost use Rattle.auth_io.specs.Files.{Contents, ReadAnswers, HasAtMost, AddsAsked, read_entry, ReadRose, ReplaceRose, ReplaceSays};

    ghost contents: { Self → Option Contents };

    /// Each call by the name and how it ended. A call that found no memory isn't there.
    ghost asked: { Self → Option (List (List ℕ × Ending)) };

    ghost faults: { Self → ℕ };

    /// The file's bytes, where there are at most `limit`.
    fn read(&mut self, name: &[u8], limit: u64) -> FileAnswer
        ensures answer { ReadAnswers (contents self.old) name.now limit result }
        ensures within { HasAtMost limit result }
        ensures contents { contents self.new ≡ contents self.old }
        ensures asked { AddsAsked (asked self.old) (asked self.new) (read_entry name.now result) }
        ensures later { faults self.old ≤ faults self.new }
        ensures cause { ReadRose result (faults self.old) (faults self.new) };

    /// Makes these bytes the file's whole content, whether it was there or not.
    fn replace(&mut self, name: &[u8], bytes: &[u8]) -> Replaced
        ensures says { ReplaceSays (contents self.old) (contents self.new) (asked self.old) (asked self.new) name.now bytes.now result }
        ensures later { faults self.old ≤ faults self.new }
        ensures cause { ReplaceRose result (faults self.old) (faults self.new) };
}
