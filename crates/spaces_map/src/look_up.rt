//! Finding the space of a path.
ghost use Rattle.std.specs.Prelude.{◌≡◌, ◌∷◌, ◌++◌, ◌||◌, [], bytes_eq, nat_eq, option_copied};
ghost use Rattle.std.specs.List.{starts_with};
ghost use Rattle.spaces_map.specs.Spaces.{holds, later_of, space_of};

use crate::space::Space;
use auth_grammar::behind;

/// Whether the path is the prefix, or goes on behind it with `/`.
fn goes_on(prefix: &[u8], path: &[u8]) -> bool
    ensures { result ≡ (bytes_eq path.now prefix.now || starts_with nat_eq path.now (prefix.now ++ 47 ∷ [])) }
{
    match behind(path, prefix) {
        None => false,
        Some([]) => true,
        Some([first, ..]) => *first == b'/',
    }
}

/// Whether the prefix holds the path by whole segments.
fn holds(prefix: &[u8], path: &[u8]) -> bool
    ensures { result ≡ holds prefix.now path.now }
{
    prefix == b"/".as_slice() || goes_on(prefix, path)
}

/// The one with the longer prefix, the first of two of one length.
fn later_of<'s>(best: Option<&'s Space>, space: &'s Space) -> &'s Space
    ensures { result.now ≡ later_of (option_copied best.entry) space.now }
{
    match best {
        None => space,
        Some(best) if best.prefix.len() < space.prefix.len() => space,
        Some(best) => best,
    }
}

/// The space of a path: that with the longest prefix that holds it.
pub(crate) fn space_of<'s>(spaces: &'s [Space], path: &[u8]) -> Option<&'s Space>
    ensures { option_copied result ≡ space_of path.now spaces.now }
{
    let mut best = None;
    for space in spaces {
        if holds(space.prefix.bytes(), path) {
            best = Some(later_of(best, space));
        }
    }
    best
}
