//! The line before a chunk, read as its bytes come (RFC 9112 section 7.1).
ghost use Rattle.std.specs.Prelude.{◌≡◌, length};
ghost use Rattle.http_wire.specs.ChunkLine.{Line, behind_size, line_step, chunk_line, size_of, GoesOnLine, FindsLine};

use httparse::{Status, parse_chunk_size};

/// The part of the line in which the next byte stands.
#[derive(Clone, Copy)]
pub(crate) enum LinePart {
    /// Behind that many hexadecimal digits.
    Digits(u32),
    /// Behind white space.
    Pad,
    /// Behind a semicolon.
    Extension,
    /// Behind the CR.
    End,
}

/// What a byte does.
#[derive(Clone, Copy)]
pub(crate) enum LineStep {
    On(LinePart),
    /// The line is whole.
    Done,
    /// No line goes on so.
    Never,
}

/// How far the reading of a line has come.
#[derive(Clone, Copy)]
pub(crate) enum LineSearch {
    /// The line takes that many bytes.
    Found(usize),
    /// It may be one, up to here.
    Going { from: usize, part: LinePart },
    /// It never is one.
    Refused,
}

/// What a byte behind the digits and the white space does.
fn behind_size(b: u8) -> LineStep
    ensures { result ≡ behind_size b }
{
    match b {
        b'\r' => LineStep::On(LinePart::End),
        b';' => LineStep::On(LinePart::Extension),
        b' ' | b'\t' => LineStep::On(LinePart::Pad),
        _ => LineStep::Never,
    }
}

fn digit_step(count: u32, b: u8) -> LineStep
    ensures { result ≡ line_step (LinePart.Digits count) b }
{
    if b.is_ascii_hexdigit() {
        if count < 16 {
            return LineStep::On(LinePart::Digits(count + 1));
        }
        return LineStep::Never;
    }
    if count == 0 {
        return LineStep::Never;
    }
    behind_size(b)
}

fn extension_step(b: u8) -> LineStep
    ensures { result ≡ line_step LinePart.Extension b }
{
    match b {
        b'\r' => LineStep::On(LinePart::End),
        b'\n' => LineStep::Never,
        _ => LineStep::On(LinePart::Extension),
    }
}

fn line_step(part: LinePart, b: u8) -> LineStep
    ensures { result ≡ line_step part b }
{
    match part {
        LinePart::Digits(count) => digit_step(count, b),
        LinePart::Pad => behind_size(b),
        LinePart::Extension => extension_step(b),
        LinePart::End if b == b'\n' => LineStep::Done,
        LinePart::End => LineStep::Never,
    }
}

/// Reads on from a place.
pub(crate) fn find_line(bytes: &[u8], from: usize, part: LinePart) -> LineSearch
    requires { GoesOnLine bytes.now from part }
    ensures { FindsLine bytes.now result }
{
    let mut at = from;
    let mut part = part;
    while at < bytes.len() {
        match line_step(part, bytes[at]) {
            LineStep::On(next) => part = next,
            LineStep::Done => return LineSearch::Found(at + 1),
            LineStep::Never => return LineSearch::Refused,
        }
        at += 1;
    }
    LineSearch::Going { from: at, part }
}

/// The size that a line tells.
pub(crate) fn chunk_size(line: &[u8]) -> u64
    requires { chunk_line line.now ≡ Line (length line.now) }
    ensures { result ≡ size_of line.now }
{
    match parse_chunk_size(line) {
        Ok(Status::Complete((_, size))) => size,
        Ok(Status::Partial) => 0,
        Err(_) => 0,
    }
}
