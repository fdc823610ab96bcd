//! How the requests for a URL end.
ghost use Rattle.std.specs.Prelude.{◌≡◌};
ghost use Rattle.authget.specs.Fetched.{end_by};

use client_core::Outcome;
use http_wire::Response;

/// How the requests for a URL end.
#[derive(Drop)]
pub(crate) enum End {
    /// With a response that is no challenge. Whether the server has proved itself.
    Got { proved: bool, response: Response },
    /// The credentials were refused, or the eighth request is to be made again.
    Refused,
    /// The server's proof is wrong.
    WrongProof,
    /// A reply is no response, ends inside, or has a field out of form.
    Malformed,
    /// Nothing is offered that the client answers.
    NoOffer,
}

impl End {
    /// The end by what a response means, or None where the URL is asked for again.
    pub(crate) fn by(outcome: Outcome, response: Response) -> Option<End>
        ensures { result ≡ end_by outcome response }
    {
        match outcome {
            Outcome::Mutual => Some(End::Got {
                proved: true,
                response,
            }),
            Outcome::OneWay => Some(End::Got {
                proved: false,
                response,
            }),
            Outcome::Retry => None,
            Outcome::Refused => Some(End::Refused),
            Outcome::WrongProof => Some(End::WrongProof),
            Outcome::NoOffer { .. } => Some(End::NoOffer),
            Outcome::Malformed { .. } => Some(End::Malformed),
        }
    }
}
