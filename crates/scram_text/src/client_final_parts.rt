//! The parts of a client's last message.
ghost use Rattle.std.specs.Prelude.{◌≤◌, length, IfErr, IfOk};
ghost use Rattle.scram_text.specs.ClientFinals.{CutsClientFinal, IsClientFinalText};
ghost use Rattle.scram_text.specs.Parts.{BreaksOff, HoldsTail, IsAttribute, IsTail, StandBefore};
ghost use Rattle.scram_text.specs.declared.attribute.Attribute.TheVariants.{Inner};
ghost use Rattle.scram_text.specs.Reaching.{Halts};

use crate::attribute::Attribute;
use crate::bytes::farther;
use crate::parts::next_part;

/// The header, the nonce and the proof as they are written.
pub(crate) fn client_final_parts(text: &[u8]) -> Result<(&[u8], &[u8], &[u8]), usize>
    ensures ok { IfOk result (λ found. CutsClientFinal text.now found.0.now found.1.now found.2.now) }
    ensures err { IfErr result (λ at. Halts IsClientFinalText text.now at) }
    ensures within { IfErr result (λ at. at ≤ length text.now) }
{
    let (binding, rest) = match next_part(Attribute::Binding, text) {
        Ok(found) => found,
        Err(at) => return Err(at),
    };
    let (nonce, tail) = match next_part(Attribute::Nonce, rest) {
        Ok(found) => found,
        Err(at) => return Err(text.len() - rest.len() + at),
    };
    match proof_behind(tail) {
        Ok(proof) => Ok((binding, nonce, proof)),
        Err(at) => Err(text.len() - rest.len() + (rest.len() - tail.len() + at)),
    }
}

/// The proof at the end of the text, behind extensions.
fn proof_behind(text: &[u8]) -> Result<&[u8], usize>
    ensures ok { IfOk result (λ proof. HoldsTail text.now proof.now) }
    ensures err { IfErr result (λ at. Halts IsTail text.now at) }
    ensures within { IfErr result (λ at. at ≤ length text.now) }
{
    let mut rest = text;
    'parts: loop {
        match next_part(Attribute::Inner, rest) {
            Ok((_, more)) => rest = more,
            Err(at) => return last_proof(text, rest, at),
        }
    }
}

/// The proof that the rest of the text is, which goes on so far as another extension.
fn last_proof<'t>(text: &[u8], rest: &'t [u8], at: usize) -> Result<&'t [u8], usize>
    requires before { StandBefore rest.now text.now }
    requires off { BreaksOff (IsAttribute Inner) rest.now at }
    requires within_rest { at ≤ length rest.now }
    ensures ok { IfOk result (λ proof. HoldsTail text.now proof.now) }
    ensures err { IfErr result (λ reach. Halts IsTail text.now reach) }
    ensures within { IfErr result (λ reach. reach ≤ length text.now) }
{
    match Attribute::Proof.content_of(rest) {
        Some(proof) => Ok(proof),
        None => Err(text.len() - rest.len() + farther(at, Attribute::Proof.reach(rest))),
    }
}
