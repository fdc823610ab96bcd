//! The search for the end of a head.
ghost use Rattle.std.specs.Prelude.{◌≤◌, length};
ghost use Rattle.http_wire.specs.Search.{Tracks, Finds, FindsEnd, GoesOn, TellsLine, TellsEnd};

use memchr::memchr;

/// How far a search has come.
#[derive(Clone, Copy)]
pub(crate) enum Place {
    /// Empty lines alone, up to here.
    Blank { start: usize },
    /// A head that begins at `start` and doesn't end at a line feed before `from`.
    Head { start: usize, from: usize },
}

/// Where the head is, or how far the search has come.
#[derive(Clone, Copy)]
pub(crate) enum Search {
    Found { start: usize, end: usize },
    Unfound(Place),
}

/// Where the first line feed with an empty line behind it ends, or how far the search has come.
#[derive(Clone, Copy)]
pub(crate) enum End {
    At(usize),
    Missing(usize),
}

/// Searches on.
pub(crate) fn find_head(bytes: &[u8], place: Place) -> Search
    requires { Tracks bytes.now place }
    ensures { Finds bytes.now result }
{
    match place {
        Place::Blank { start } => search_blank(bytes, start),
        Place::Head { start, from } => search_head(bytes, start, from),
    }
}

/// The length of the empty line at the front, 0 where none is there, or None where the bytes that follow tell.
pub(crate) fn line_here(bytes: &[u8]) -> Option<usize>
    ensures { TellsLine bytes.now result }
{
    match bytes {
        [] => None,
        [b'\n', ..] => Some(1),
        [b'\r'] => None,
        [b'\r', b'\n', ..] => Some(2),
        [_, ..] => Some(0),
    }
}

/// How far from here the head's end is, 0 where its last line doesn't begin after this byte.
fn end_at(bytes: &[u8]) -> Option<usize>
    ensures { TellsEnd bytes.now result }
{
    match bytes {
        [] => None,
        [b'\n', rest @ ..] => match line_here(rest) {
            None => None,
            Some(0) => Some(0),
            Some(n) => Some(n + 1),
        },
        [_, ..] => Some(0),
    }
}

fn search_blank(bytes: &[u8], start: usize) -> Search
    requires { Tracks bytes.now (Place.Blank start) }
    ensures { Finds bytes.now result }
{
    let mut at = start;
    'lines: loop {
        match line_here(&bytes[at..]) {
            None => return Search::Unfound(Place::Blank { start: at }),
            Some(0) => return search_head(bytes, at, at),
            Some(n) => at += n,
        }
    }
}

fn search_head(bytes: &[u8], start: usize, from: usize) -> Search
    requires { Tracks bytes.now (Place.Head start from) }
    ensures { Finds bytes.now result }
{
    match find_end(bytes, from) {
        End::At(end) => Search::Found { start, end },
        End::Missing(from) => Search::Unfound(Place::Head { start, from }),
    }
}

/// Where the first line feed from `from` on stands, or the end where there is none.
fn next_feed(bytes: &[u8], from: usize) -> usize
    requires { from ≤ length bytes.now }
    ensures onward { from ≤ result }
    ensures goes_on { GoesOn bytes.now from result }
{
    match memchr(b'\n', &bytes[from..]) {
        Some(n) => from + n,
        None => bytes.len(),
    }
}

/// Looks for the first line feed from `from` on that is followed by an empty line.
pub(crate) fn find_end(bytes: &[u8], from: usize) -> End
    requires { from ≤ length bytes.now }
    ensures { FindsEnd bytes.now from result }
{
    let mut at = next_feed(bytes, from);
    'ends: loop {
        match end_at(&bytes[at..]) {
            None => return End::Missing(at),
            Some(0) => at = next_feed(bytes, at + 1),
            Some(n) => return End::At(at + n),
        }
    }
}
