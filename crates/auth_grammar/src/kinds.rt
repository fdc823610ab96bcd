//! The kinds of bytes that the grammar tells apart.
ghost use Rattle.std.specs.Prelude.{◌≡◌, get_or};
ghost use Rattle.auth_grammar.specs.declared.kinds.Kind.TheVariants.{Comma};
ghost use Rattle.auth_grammar.specs.Kinds.{is_escapable, is_plain, is_quotable, is_token, is_token68, kind_of};

use Kind::{Backslash, Comma, Control, Equals, Mark, Plain, Quotable, Quote, Slash, Space, Tab};

/// What a byte can be in the grammar.
#[derive(Clone, Copy, Debug, PartialEq, Eq)]
pub enum Kind {
    Comma,
    Space,
    Tab,
    Equals,
    Quote,
    Backslash,
    /// `/`, in a token68 alone
    Slash,
    /// letters, digits and `-._~+`, in tokens and in a token68
    Plain,
    /// the other bytes of a token
    Mark,
    /// in quotes alone
    Quotable,
    /// nowhere
    Control,
}

impl Kind {
    /// Whether it stands in a token.
    pub fn is_token(self) -> bool
        ensures { result ≡ is_token self }
    {
        matches!(self, Kind::Plain | Kind::Mark)
    }

    /// Whether it stands in a token and in a token68.
    pub fn is_plain(self) -> bool
        ensures { result ≡ is_plain self }
    {
        matches!(self, Kind::Plain)
    }

    /// Whether it stands in a token68 before its `=`.
    pub fn is_token68(self) -> bool
        ensures { result ≡ is_token68 self }
    {
        matches!(self, Kind::Plain | Kind::Slash)
    }

    /// Whether it may stand after a backslash in a quoted string.
    pub fn is_escapable(self) -> bool
        ensures { result ≡ is_escapable self }
    {
        !matches!(self, Kind::Control)
    }

    /// Whether it stands for itself in a quoted string.
    pub fn is_quotable(self) -> bool
        ensures { result ≡ is_quotable self }
    {
        !matches!(self, Kind::Control | Kind::Quote | Kind::Backslash)
    }
}

/// The kind of each byte.
static KINDS: [Kind; 256] = [
    Control, Control, Control, Control, Control, Control, Control, Control, Control, Tab, Control,
    Control, Control, Control, Control, Control, Control, Control, Control, Control, Control,
    Control, Control, Control, Control, Control, Control, Control, Control, Control, Control,
    Control, Space, Mark, Quote, Mark, Mark, Mark, Mark, Mark, Quotable, Quotable, Mark, Plain,
    Comma, Plain, Plain, Slash, Plain, Plain, Plain, Plain, Plain, Plain, Plain, Plain, Plain,
    Plain, Quotable, Quotable, Quotable, Equals, Quotable, Quotable, Quotable, Plain, Plain, Plain,
    Plain, Plain, Plain, Plain, Plain, Plain, Plain, Plain, Plain, Plain, Plain, Plain, Plain,
    Plain, Plain, Plain, Plain, Plain, Plain, Plain, Plain, Plain, Plain, Quotable, Backslash,
    Quotable, Mark, Plain, Mark, Plain, Plain, Plain, Plain, Plain, Plain, Plain, Plain, Plain,
    Plain, Plain, Plain, Plain, Plain, Plain, Plain, Plain, Plain, Plain, Plain, Plain, Plain,
    Plain, Plain, Plain, Plain, Quotable, Mark, Quotable, Plain, Control, Quotable, Quotable,
    Quotable, Quotable, Quotable, Quotable, Quotable, Quotable, Quotable, Quotable, Quotable,
    Quotable, Quotable, Quotable, Quotable, Quotable, Quotable, Quotable, Quotable, Quotable,
    Quotable, Quotable, Quotable, Quotable, Quotable, Quotable, Quotable, Quotable, Quotable,
    Quotable, Quotable, Quotable, Quotable, Quotable, Quotable, Quotable, Quotable, Quotable,
    Quotable, Quotable, Quotable, Quotable, Quotable, Quotable, Quotable, Quotable, Quotable,
    Quotable, Quotable, Quotable, Quotable, Quotable, Quotable, Quotable, Quotable, Quotable,
    Quotable, Quotable, Quotable, Quotable, Quotable, Quotable, Quotable, Quotable, Quotable,
    Quotable, Quotable, Quotable, Quotable, Quotable, Quotable, Quotable, Quotable, Quotable,
    Quotable, Quotable, Quotable, Quotable, Quotable, Quotable, Quotable, Quotable, Quotable,
    Quotable, Quotable, Quotable, Quotable, Quotable, Quotable, Quotable, Quotable, Quotable,
    Quotable, Quotable, Quotable, Quotable, Quotable, Quotable, Quotable, Quotable, Quotable,
    Quotable, Quotable, Quotable, Quotable, Quotable, Quotable, Quotable, Quotable, Quotable,
    Quotable, Quotable, Quotable, Quotable, Quotable, Quotable, Quotable, Quotable, Quotable,
    Quotable, Quotable, Quotable, Quotable, Quotable, Quotable, Quotable, Quotable, Quotable,
];

/// The kind of a byte.
pub fn kind_at(b: u8) -> Kind
    ensures { result ≡ kind_of b }
{
    kind_in(&KINDS, b)
}

/// What a table of kinds says of a byte.
fn kind_in(kinds: &[Kind; 256], b: u8) -> Kind
    ensures { result ≡ get_or kinds.now b Comma }
{
    kinds[b as usize]
}
