//! Reading the text of spaces.
ghost use Rattle.std.specs.Prelude.{◌≡◌, ◌<◌, ◌≤◌, ◌+◌, bytes_eq, length, IfErr, IfOk};
ghost use Rattle.std.specs.List.{position_or_len};
ghost use Rattle.spaces_map.specs.LineFaults.{IsLineFault};
ghost use Rattle.spaces_map.specs.Lines.{line_text};
ghost use Rattle.spaces_map.specs.Outcomes.{ReadsOneWay};
ghost use Rattle.spaces_map.specs.Texts.{IsFault, IsSpaces, MayFollow, has_prefix, number_of, spaces_text};

use crate::error::SpacesError;
use crate::lines::space_in;
use crate::space::{Mode, Space};
use auth_grammar::{Sequence, behind, cut_at};
use std::alloc::Global;

/// The first line, with its line feed.
const HEADER: &[u8] = b"authspaces 1\n";

/// The most spaces of a text.
const SPACES_LIMIT: usize = 256;

/// Whether a space has this prefix.
fn has_prefix(spaces: &[Space], prefix: &[u8]) -> bool
    ensures { result ≡ has_prefix prefix.now spaces.now }
{
    spaces.iter().any(|space| space.prefix.bytes() == prefix)
}

/// The place from 0 of the first space of this realm, or their number.
fn place_of(spaces: &[Space], realm: &[u8]) -> usize
    ensures place { result ≡ position_or_len (λ space. bytes_eq space.realm realm.now) spaces.now }
    ensures within { result ≤ length spaces.now }
{
    spaces
        .iter()
        .position(|space| space.realm.bytes() == realm)
        .unwrap_or(spaces.len())
}

/// The number of a space behind others.
fn number_of(before: &[Space], mode: Mode, realm: &[u8]) -> u32
    requires { length before.now ≤ 256 }
    ensures { result ≡ number_of before.now mode realm.now }
{
    match mode {
        Mode::Open => before.len() as u32,
        Mode::Optional | Mode::Required => place_of(before, realm) as u32,
    }
}

/// The line behind these spaces.
fn line_behind(spaces: &[Space]) -> u32
    requires { length spaces.now ≤ 256 }
    ensures { result ≡ length spaces.now + 2 }
{
    spaces.len() as u32 + 2
}

/// The space of a line behind these spaces.
fn next_space(alloc: Global, before: &[Space], line: &[u8]) -> Result<Space, SpacesError>
    requires { length before.now ≤ 256 }
    ensures fits { IfOk result (λ space. MayFollow before.now space) }
    ensures text { IfOk result (λ space. line.now ≡ line_text space) }
    ensures room { IfOk result (λ _. length before.now < 256) }
    ensures fault { IfErr result (λ error. IsLineFault before.now line.now error) }
{
    let at = line_behind(before);
    if before.len() >= SPACES_LIMIT {
        return Err(SpacesError::BadLine { line: at });
    }
    let Some(mut space) = space_in(alloc, line)? else {
        return Err(SpacesError::BadLine { line: at });
    };
    if has_prefix(before, space.prefix.bytes()) {
        return Err(SpacesError::SamePrefix { line: at });
    }
    space.number = number_of(before, space.mode, space.realm.bytes());
    Ok(space)
}

/// The spaces of a text.
pub(crate) fn spaces_in(alloc: Global, text: &[u8]) -> Result<Sequence<Space>, SpacesError>
    ensures form { IfOk result (λ spaces. IsSpaces spaces) }
    ensures text { IfOk result (λ spaces. text.now ≡ spaces_text spaces) }
    ensures fault { IfErr result (λ error. IsFault text.now error) }
{
    let Some(lines) = behind(text, HEADER) else {
        return Err(SpacesError::BadLine { line: 1 });
    };
    let mut spaces = Sequence::new(alloc);
    let mut rest = lines;
    while !rest.is_empty() {
        let Some((line, more)) = cut_at(rest, b'\n') else {
            return Err(SpacesError::BadLine {
                line: line_behind(spaces.as_slice()),
            });
        };
        spaces.push(next_space(alloc, spaces.as_slice(), line)?)?;
        rest = more;
    }
    Ok(spaces)
}

/// A text is read in one way: it is that of one list of spaces, or it has one first fault.
#[tactic(auto, using(crate::proofs::OneWay::one_way))]
pub fn reads_one_way()
    ensures { ReadsOneWay }
{}
