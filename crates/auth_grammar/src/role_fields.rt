//! The fields in which a server or a proxy authenticates its clients.
ghost use Rattle.std.specs.Prelude.{◌≡◌};
ghost use Rattle.auth_grammar.specs.RoleFields.{challenge_name, credentials_field, credentials_name, info_name, offer_name};

use crate::items::Role;

impl Role {
    /// The field with challenges (RFC 9110 sections 11.6.1 and 11.7.1).
    pub fn challenge_name(self) -> &'static [u8]
        ensures { result.now ≡ challenge_name self }
    {
        match self {
            Role::Origin => b"WWW-Authenticate",
            Role::Proxy => b"Proxy-Authenticate",
        }
    }

    /// The field with what is offered where no user is needed (RFC 8053 section 3). A proxy always needs one.
    pub fn offer_name(self) -> &'static [u8]
        ensures { result.now ≡ offer_name self }
    {
        match self {
            Role::Origin => b"Optional-WWW-Authenticate",
            Role::Proxy => self.challenge_name(),
        }
    }

    /// The field in which the server proves itself (RFC 9110 sections 11.6.3 and 11.7.3).
    pub fn info_name(self) -> &'static [u8]
        ensures { result.now ≡ info_name self }
    {
        match self {
            Role::Origin => b"Authentication-Info",
            Role::Proxy => b"Proxy-Authentication-Info",
        }
    }

    /// The field with credentials (RFC 9110 sections 11.6.2 and 11.7.2).
    pub fn credentials_name(self) -> &'static [u8]
        ensures { result.now ≡ credentials_name self }
    {
        match self {
            Role::Origin => b"Authorization",
            Role::Proxy => b"Proxy-Authorization",
        }
    }

    /// The same in lower case.
    pub fn credentials_field(self) -> &'static [u8]
        ensures { result.now ≡ credentials_field self }
    {
        match self {
            Role::Origin => b"authorization",
            Role::Proxy => b"proxy-authorization",
        }
    }
}
