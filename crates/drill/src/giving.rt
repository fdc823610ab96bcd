//! The credentials that a client gives.
ghost use Rattle.std.specs.Prelude.{◌≡◌, ◌≤◌, ℕ, Err, IfOk, OnErr};
ghost use Rattle.auth_io.specs.Causes.{Rose};
ghost use Rattle.client_core.specs.Digests.{DrewAtMost};
ghost use Rattle.drill.specs.Steps.{Gives};

use crate::deciding::are_words;
use crate::error::DrillError;
use crate::requests::out_request;
use auth_io::Words;
use client_core::{Client, Sent};
use std::alloc::Global;

/// The credentials for the next request, by words that are drawn.
pub(crate) fn give<W: Words>(
    alloc: Global,
    client: &mut Client,
    moment: u64,
    random: &mut W,
) -> Result<Sent, DrillError>
    ensures ok { IfOk result (Gives client.old client.new moment (W.drawn random.old) (W.drawn random.new)) }
    ensures err { OnErr result (DrewAtMost client.old client.new) }
    ensures worn { (calls : ℕ) → result ≡ Err (DrillError.Worn calls) → ⊥ }
    ensures later { W.faults random.old ≤ W.faults random.new }
    ensures fault { result ≡ Err DrillError.RandomFault → Rose (W.faults random.old) (W.faults random.new) }
{
    let request = out_request(alloc)?;
    let Ok(words) = random.draw() else {
        return Err(DrillError::RandomFault);
    };
    are_words(&words);
    let sent = client.credentials_for(&request, moment, &words)?;
    Ok(sent)
}
