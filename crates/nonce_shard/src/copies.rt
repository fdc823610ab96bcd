//! Copies that take no memory, where `clone` could be refused it.
ghost use Rattle.std.specs.Prelude.{◌≡◌};
ghost use Rattle.std.specs.Option.{option_copied};

use crate::calls::{Call, Prime, What};

pub fn copy_prime(prime: &Prime) -> Prime
    ensures { result ≡ prime.now }
{
    let mut copy = Prime::new();
    let _ = copy.try_extend_from_slice(prime.as_slice());
    copy
}

pub fn copy_optional_prime(prime: &Option<Prime>) -> Option<Prime>
    ensures { result ≡ prime.now }
{
    match prime {
        Some(prime) => Some(copy_prime(prime)),
        None => None,
    }
}

pub fn copy_call(call: &Call) -> Call
    ensures { result ≡ call.now }
{
    Call {
        moment: call.moment,
        what: copy_what(&call.what),
    }
}

fn copy_what(what: &What) -> What
    ensures { result ≡ what.now }
{
    match *what {
        What::Issue {
            kind,
            space,
            random,
        } => What::Issue {
            kind,
            space,
            random,
        },
        What::Peek { nonce, space } => What::Peek { nonce, space },
        What::Use {
            nonce,
            kind,
            space,
            count,
            ref prime,
        } => What::Use {
            nonce,
            kind,
            space,
            count,
            prime: copy_optional_prime(prime),
        },
        What::Open {
            space,
            random,
            ref exchange,
        } => What::Open {
            space,
            random,
            exchange: exchange.copy(),
        },
        What::Take { sid, space } => What::Take { sid, space },
        What::Keep { sid, space } => What::Keep { sid, space },
        What::Recall { sid, space } => What::Recall { sid, space },
    }
}
