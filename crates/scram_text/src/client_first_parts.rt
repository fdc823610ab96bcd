//! The parts of a client's first message.
ghost use Rattle.std.specs.Prelude.{◌≡◌, ◌≤◌, ◌∷◌, ℕ, List, length, IfErr, IfOk};
ghost use Rattle.scram_text.specs.ClientFirsts.{IsBare, IsBareText, IsClientFirstText};
ghost use Rattle.scram_text.specs.Flags.{flag_letter};
ghost use Rattle.scram_text.specs.Contents.{WritesName};
ghost use Rattle.scram_text.specs.Reaching.{Halts};

use crate::attribute::Attribute;
use crate::bytes::first_byte;
use crate::flag::{Flag, flag_of};
use crate::parts::{last_part, next_part};
use auth_grammar::behind;

/// The flag, and what stands behind its commas.
pub(crate) fn flagged(text: &[u8]) -> Result<(Flag, &[u8]), usize>
    ensures ok { IfOk result (λ found. text.now ≡ flag_letter found.0 ∷ 44 ∷ 44 ∷ found.1.now) }
    ensures err { IfErr result (λ at. Halts IsClientFirstText text.now at) }
    ensures within { IfErr result (λ at. at ≤ length text.now) }
{
    let Some((letter, rest)) = first_byte(text) else {
        return Err(0);
    };
    let Some(flag) = flag_of(letter) else {
        return Err(0);
    };
    let Some(more) = behind(rest, b",") else {
        return Err(1);
    };
    match behind(more, b",") {
        Some(bare) => Ok((flag, bare)),
        None => Err(2),
    }
}

/// The written name and the nonce of what stands behind the flag.
pub(crate) fn bare_parts(text: &[u8]) -> Result<(&[u8], &[u8]), usize>
    ensures ok { IfOk result (λ found. IsBare text.now found.0.now found.1.now) }
    ensures name { IfOk result (λ found. (name : List ℕ) × WritesName found.0.now name) }
    ensures err { IfErr result (λ at. Halts IsBareText text.now at) }
    ensures within { IfErr result (λ at. at ≤ length text.now) }
{
    let (name, rest) = match next_part(Attribute::Name, text) {
        Ok(found) => found,
        Err(at) => return Err(at),
    };
    match last_part(Attribute::Nonce, rest) {
        Ok(nonce) => Ok((name, nonce)),
        Err(at) => Err(text.len() - rest.len() + at),
    }
}
