//! Whether a client knows of channel binding.
ghost use Rattle.std.specs.Prelude.{◌≡◌, ◌≤◌, ◌∷◌, [], false, length, IfNone, IfSome};
ghost use Rattle.scram_text.specs.Contents.{WritesHeader};
ghost use Rattle.scram_text.specs.Reaching.{Reaches};
ghost use Rattle.scram_text.specs.declared.flag.Flag.{Flag};
ghost use Rattle.scram_text.specs.Flags.{flag_letter, is_flag};

use crate::bytes::farther;
use crate::runs::word_reach;

/// The flag of a client that binds no channel (RFC 5802 section 7: gs2-cbind-flag).
#[derive(Debug, Drop, Clone, Copy, PartialEq, Eq)]
pub enum Flag {
    /// The client knows of no channel binding: `n`.
    N,
    /// The client knows of it, and takes the server to know of none: `y`.
    Y,
}

impl Flag {
    /// What a client's first message begins with (RFC 5802 section 7: gs2-header).
    pub(crate) fn header(self) -> &'static [u8]
        ensures { result.now ≡ flag_letter self ∷ 44 ∷ 44 ∷ [] }
    {
        match self {
            Flag::N => b"n,,",
            Flag::Y => b"y,,",
        }
    }

    /// The same in base64, which the last message has (RFC 5802 section 7: channel-binding).
    pub(crate) fn binding(self) -> &'static [u8]
        ensures { WritesHeader result.now self }
    {
        match self {
            Flag::N => b"biws",
            Flag::Y => b"eSws",
        }
    }
}

/// The flag whose header the text is.
pub(crate) fn bound_flag(text: &[u8]) -> Option<Flag>
    ensures some { IfSome result (λ flag. WritesHeader text.now flag) }
    ensures none { IfNone result ((flag : Flag) → WritesHeader text.now flag → ⊥) }
{
    if text == Flag::N.binding() {
        return Some(Flag::N);
    }
    if text == Flag::Y.binding() {
        return Some(Flag::Y);
    }
    None
}

/// How far the text could go on as one.
pub(crate) fn binding_reach(text: &[u8]) -> usize
    ensures reach { Reaches (λ t. (flag : Flag) × WritesHeader t flag) text.now result }
    ensures within { result ≤ length text.now }
{
    farther(
        word_reach(Flag::N.binding(), text),
        word_reach(Flag::Y.binding(), text),
    )
}

/// The flag of a letter.
pub(crate) fn flag_of(letter: u8) -> Option<Flag>
    ensures some { IfSome result (λ flag. letter ≡ flag_letter flag) }
    ensures none { IfNone result (is_flag letter ≡ false) }
{
    match letter {
        b'n' => Some(Flag::N),
        b'y' => Some(Flag::Y),
        _ => None,
    }
}
