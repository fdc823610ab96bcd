//! The nonce of a reauthentication (RFC 7804 section 5.1).
ghost use Rattle.std.specs.Prelude.{◌≡◌, ◌<◌, ◌++◌, ℕ, List, true, length, IfNone, IfOk, IfSome, MatchOption};
ghost use Rattle.std.specs.Char.{is_ascii_digit};
ghost use Rattle.std.specs.List.{list_all};
ghost use Rattle.scram_text.specs.Reauths.{EndsDigit, EndsPlain, IsReauth, reauth_text};

use crate::counts::count_of;
use crate::runs::{Class, all_of, is_run};
use auth_grammar::{Octets, OutOfMemory};
use itoa::Buffer;
use std::alloc::Global;

/// The length of what a server gives as `sr`.
pub const SR_LENGTH: usize = 36;

/// What a client sends as its nonce when it uses an exchange again: a part of its own, how often it does so, and the
/// server's `sr`. It is what `read` gives for some text.
#[derive(Drop)]
pub struct ReauthNonce {
    pub client: Octets,
    pub count: u32,
    pub sr: [u8; SR_LENGTH],
    ghost spelled: { ∥ IsReauth (reauth_text client count sr) client count sr ∥₁ },
}

impl ReauthNonce {
    /// The nonce, where the bytes are one. The count is the longest run of digits before the `sr`.
    pub fn read(alloc: Global, r: &[u8]) -> Result<Option<ReauthNonce>, OutOfMemory>
        ensures some { IfOk result (λ found. IfSome found (λ n. IsReauth r.now n.client n.count n.sr)) }
        ensures none { IfOk result (λ found. IfNone found ((client : List ℕ) (count : ℕ) (sr : List ℕ)
            → IsReauth r.now client count sr → ⊥)) }
    {
        let Some((client, count, sr)) = reauth_parts(r) else {
            return Ok(None);
        };
        let client = Octets::of(alloc, client)?;
        let mut last = [0; SR_LENGTH];
        last.copy_from_slice(sr);
        Ok(Some(ReauthNonce {
            client,
            count,
            sr: last,
        }))
    }

    /// The nonce as it is sent.
    pub fn write(&self, alloc: Global) -> Result<Octets, OutOfMemory>
        ensures text { IfOk result (λ t. t ≡ reauth_text self.now.client self.now.count self.now.sr) }
        ensures reads_back { IfOk result (λ t. ∥ IsReauth t self.now.client self.now.count self.now.sr ∥₁) }
    {
        let mut text = Octets::of(alloc, self.client.bytes())?;
        text.extend(Buffer::new().format(self.count).as_bytes())?;
        text.extend(&self.sr)?;
        Ok(text)
    }
}

/// The client's part, the count and the `sr`.
fn reauth_parts(text: &[u8]) -> Option<(&[u8], u32, &[u8])>
    ensures some { IfSome result (λ found. IsReauth text.now found.0.now found.1 found.2.now) }
    ensures none { IfNone result ((client : List ℕ) (count : ℕ) (sr : List ℕ) → IsReauth text.now client count sr → ⊥) }
{
    let Some((head, sr)) = last_bytes(text) else {
        return None;
    };
    if !all_of(Class::Symbol, sr) {
        return None;
    }
    let (client, digits) = split_digits(head);
    let Some(count) = count_of(digits) else {
        return None;
    };
    if !is_run(Class::Nonce, client) {
        return None;
    }
    Some((client, count, sr))
}

/// What stands before the last bytes, and these.
fn last_bytes(text: &[u8]) -> Option<(&[u8], &[u8])>
    ensures some { IfSome result (λ found. text.now ≡ found.0.now ++ found.1.now) }
    ensures long { IfSome result (λ found. length found.1.now ≡ SR_LENGTH) }
    ensures none { IfNone result (length text.now < SR_LENGTH) }
{
    if text.len() < SR_LENGTH {
        None
    } else {
        Some(text.split_at(text.len() - SR_LENGTH))
    }
}

/// The text before its last digits, and these.
fn split_digits(text: &[u8]) -> (&[u8], &[u8])
    ensures cut { text.now ≡ result.0.now ++ result.1.now }
    ensures digits { list_all is_ascii_digit result.1.now ≡ true }
    ensures plain { EndsPlain result.0.now }
{
    let mut head = text;
    while let Some(front) = before_digit(head) {
        head = front;
    }
    text.split_at(head.len())
}

/// The text before its last byte, where that is a digit.
fn before_digit(text: &[u8]) -> Option<&[u8]>
    ensures some { IfSome result (λ front. EndsDigit text.now front.now) }
    ensures none { IfNone result (EndsPlain text.now) }
{
    match text {
        [front @ .., last] if last.is_ascii_digit() => Some(front),
        _ => None,
    }
}
