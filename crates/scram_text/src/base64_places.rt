//! The bytes of base64 texts, place by place (RFC 4648 section 4).
ghost use Rattle.std.specs.Prelude.{◌≡◌, ◌≤◌, true, length};
ghost use Rattle.scram_text.specs.Base64Places.{Walks, ends_in_zeros, may_end, may_follow as may_follow_at, next_place, symbol_value};
ghost use Rattle.scram_text.specs.Bytes.{is_symbol};

use crate::runs::Class;

/// A place in a base64 text.
#[derive(Drop, Clone, Copy)]
pub(crate) enum Place {
    /// Nothing stands before it, and something has to follow.
    Start,
    /// Whole groups of four stand before it.
    Group,
    /// One character of a group.
    One,
    /// Two, the second of which ends in four zeros or not.
    Two(bool),
    /// Three, the third of which ends in two zeros or not.
    Three(bool),
    /// The first of two signs of padding.
    Sign,
    /// All of the text.
    End,
    /// So many characters are to follow, and then one sign of padding.
    Sized(usize),
}

impl Place {
    /// The place behind the byte, if it may stand here.
    fn next(self, byte: u8) -> Option<Place>
        ensures { result ≡ next_place self byte }
    {
        if Class::Symbol.has(byte) {
            self.behind_symbol(byte)
        } else if byte == b'=' {
            self.behind_sign()
        } else {
            None
        }
    }

    /// The place behind the character.
    fn behind_symbol(self, byte: u8) -> Option<Place>
        requires { is_symbol byte ≡ true }
        ensures { result ≡ next_place self byte }
    {
        match self {
            Place::Start => Some(Place::One),
            Place::Group => Some(Place::One),
            Place::One => Some(Place::Two(ends_in_zeros(16, byte))),
            Place::Two(_) => Some(Place::Three(ends_in_zeros(4, byte))),
            Place::Three(_) => Some(Place::Group),
            Place::Sign => None,
            Place::End => None,
            Place::Sized(n) => {
                if n > 1 || n == 1 && ends_in_zeros(4, byte) {
                    Some(Place::Sized(n - 1))
                } else {
                    None
                }
            }
        }
    }

    /// The place behind a sign of padding.
    fn behind_sign(self) -> Option<Place>
        ensures { result ≡ next_place self 61 }
    {
        match self {
            Place::Two(zeros) => if zeros { Some(Place::Sign) } else { None },
            Place::Three(zeros) => if zeros { Some(Place::End) } else { None },
            Place::Sign => Some(Place::End),
            Place::Sized(n) => if n == 0 { Some(Place::End) } else { None },
            _ => None,
        }
    }

    /// Whether a text may end here.
    fn may_end(self) -> bool
        ensures { result ≡ may_end self }
    {
        match self {
            Place::Group => true,
            Place::End => true,
            _ => false,
        }
    }
}

/// Whether the value of the character (RFC 4648 section 4, table 1) is a multiple.
fn ends_in_zeros(m: u8, byte: u8) -> bool
    requires some { 1 ≤ m }
    requires symbol { is_symbol byte ≡ true }
    ensures { result ≡ ends_in_zeros m byte }
{
    symbol_value(byte) % m == 0
}

fn symbol_value(byte: u8) -> u8
    requires { is_symbol byte ≡ true }
    ensures { result ≡ symbol_value byte }
{
    match byte {
        b'/' => 63,
        b'+' => 62,
        b'0'..=b'9' => byte + 4,
        b'A'..=b'Z' => byte - b'A',
        _ => byte - 71,
    }
}

/// How far the text may stand at the place, and the place that follows.
pub(crate) fn walk(from: Place, text: &[u8]) -> (usize, Place)
    ensures walks { Walks from text.now result.0 result.1 }
    ensures within { result.0 ≤ length text.now }
{
    let mut place = from;
    for (at, byte) in text.iter().enumerate() {
        match place.next(*byte) {
            Some(next) => place = next,
            None => return (at, place),
        }
    }
    (text.len(), place)
}

/// Whether the text may stand at the place, to its end.
pub(crate) fn may_follow(from: Place, text: &[u8]) -> bool
    ensures { result ≡ may_follow_at from text.now }
{
    let (at, place) = walk(from, text);
    at == text.len() && place.may_end()
}
