//! The versions of a store's text.
ghost use Rattle.std.specs.Prelude.{◌≡◌, ◌≢◌, ◌++◌, ℕ, List, IfErr, IfOk};
ghost use Rattle.cred_store.specs.Faults.{IsTitleFaulty};
ghost use Rattle.cred_store.specs.Texts.{header};

use crate::error::LineFault;
use auth_grammar::behind;

/// A version of the text. Lines of the second have a flag, and a store is written with it.
#[derive(Drop, Clone, Copy)]
pub(crate) enum Version {
    One,
    Two,
}

/// The first lines, without their line feed.
const TITLE_ONE: &[u8] = b"authstore 1";

const TITLE_TWO: &[u8] = b"authstore 2";

/// The first lines.
const HEADER_ONE: &[u8] = b"authstore 1\n";

pub(crate) const HEADER_TWO: &[u8] = b"authstore 2\n";

/// The version of a text and what stands behind its first line, or what is wrong with that line.
pub(crate) fn behind_header(text: &[u8]) -> Result<(Version, &[u8]), LineFault>
    ensures ok { IfOk result (λ read. text.now ≡ header read.0 ++ read.1.now) }
    ensures err { IfErr result (λ why. IsTitleFaulty why text.now) }
{
    if text == TITLE_ONE || text == TITLE_TWO {
        return Err(LineFault::Form);
    }
    if let Some(rest) = behind(text, HEADER_ONE) {
        return Ok((Version::One, rest));
    }
    match behind(text, HEADER_TWO) {
        Some(rest) => Ok((Version::Two, rest)),
        None => Err(LineFault::Header),
    }
}
