//! The drill's site.
ghost use Rattle.std.specs.Prelude.{◌≡◌, [], ◌∷◌, IfOk};
ghost use Rattle.drill.specs.Site.{the_site, space, user_secret};

use auth_decide::Site;
use auth_grammar::{Octets, OutOfMemory};
use auth_hash::Algorithm;
use cred_store::{Secret, Store};
use spaces_map::Spaces;
use std::alloc::Global;

/// The text of its one space.
const SPACES: &[u8] = b"authspaces 1\n/ required SHA-256 drill\n";

/// The site of the one user.
pub(crate) fn site_of(alloc: Global) -> Result<Site, OutOfMemory>
    ensures { IfOk result (λ s. s ≡ the_site) }
{
    let spaces = spaces_of(alloc)?;
    let mut store = Store::new(alloc);
    let secret = Secret::of_password(Algorithm::Sha256, b"u", b"drill", b"p");
    let Ok(()) = store.set(alloc, b"u", b"drill", &secret) else {
        return Err(OutOfMemory);
    };
    Ok(Site {
        store,
        spaces,
        root: Octets::new(alloc),
    })
}

/// The site's one space.
fn spaces_of(alloc: Global) -> Result<Spaces, OutOfMemory>
    ensures { IfOk result (λ spaces. spaces ≡ space ∷ []) }
{
    match Spaces::read(alloc, SPACES) {
        Ok(spaces) => Ok(spaces),
        Err(_) => Err(OutOfMemory),
    }
}
