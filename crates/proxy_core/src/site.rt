//! Sites that are fit for a proxy.
ghost use Rattle.std.specs.Prelude.{◌≡◌, IsTrue};
ghost use Rattle.spaces_map.specs.Spaces.{proxy_ready};

use auth_decide::Site;

/// A site whose space of `/` is there and needs a user, so that a proxy can decide by it.
#[derive(Drop)]
pub struct ProxySite {
    pub site: Site,
    pub ghost ready: { IsTrue (proxy_ready site.spaces) },
}

impl ProxySite {
    /// The site, where it is fit. `Spaces::proxy_ready` tells whether it is.
    pub fn new(site: Site) -> ProxySite
        requires { IsTrue (proxy_ready site.spaces) }
        ensures { result.site ≡ site }
    {
        ProxySite { site }
    }
}
