//! The spaces of a site.
ghost use Rattle.std.specs.Prelude.{◌≡◌, ◌∷◌, ℕ, [], length, IfOk, IfSome, option_copied};
ghost use Rattle.spaces_map.specs.Lines.{IsTerms};
ghost use Rattle.spaces_map.specs.Spaces.{proxy_ready, space_of};
ghost use Rattle.spaces_map.specs.Texts.{IsBadLine, IsSamePrefix, IsSpaces, spaces_text};

use crate::error::SpacesError;
use crate::look_up::space_of;
use crate::space::{Mode, Space};
use crate::texts::spaces_in;
use auth_grammar::Sequence;
use std::alloc::Global;
use std::marker::Model;

/// The spaces of a site. Contracts see them as their list, in the order of their lines.
#[derive(Drop)]
pub struct Spaces {
    list: Sequence<Space>,
}

impl Model for Spaces {
    ghost use Rattle.std.specs.Prelude.{List};
    ghost use Rattle.spaces_map.specs.Texts.{IsSpaces};
    ghost use Rattle.spaces_map.specs.declared.space.Space.{Space};

    ghost Value = { List Space };

    ghost view = { λ s. s.list };

    ghost invariant = { λ s. IsSpaces s.list };
}

impl Spaces {
    /// Reads a text of spaces, which has at most 256 lines behind the first. Its first faulty line is named: by
    /// `BadLine` where it is none that may stand there, and else by `SamePrefix`.
    pub fn read(alloc: Global, text: &[u8]) -> Result<Spaces, SpacesError>
        ensures form { IfOk result (λ spaces. IsSpaces spaces) }
        ensures ok { IfOk result (λ spaces. text.now ≡ spaces_text spaces) }
        ensures bad_line { (line : ℕ) → result ≡ Err (SpacesError.BadLine line) → IsBadLine text.now line }
        ensures same_prefix { (line : ℕ) → result ≡ Err (SpacesError.SamePrefix line) → IsSamePrefix text.now line }
    {
        let list = spaces_in(alloc, text)?;
        Ok(Spaces { list })
    }

    /// The space of a path: that with the longest prefix that holds it.
    pub fn space_of(&self, path: &[u8]) -> Option<&Space>
        ensures space { option_copied result ≡ space_of path.now self.now }
        ensures terms { IfSome result (λ space. IsTerms space.now.mode space.now.offers space.now.realm) }
    {
        space_of(self.list.as_slice(), path)
    }

    /// Whether a proxy may serve them: the space of `/` is there and required.
    pub fn proxy_ready(&self) -> bool
        ensures { result ≡ proxy_ready self.now }
    {
        match self.space_of(b"/") {
            None => false,
            Some(space) => is_required(space.mode),
        }
    }

    /// How many spaces there are, at most 256.
    pub fn count(&self) -> u32
        ensures { result ≡ length self.now }
    {
        self.list.len() as u32
    }
}

ghost use Rattle.spaces_map.specs.Spaces.{requires_credentials};

fn is_required(mode: Mode) -> bool
    ensures { result ≡ requires_credentials mode }
{
    match mode {
        Mode::Required => true,
        Mode::Open | Mode::Optional => false,
    }
}
