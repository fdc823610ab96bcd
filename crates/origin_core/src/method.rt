//! The methods that are served.
ghost use Rattle.std.specs.Prelude.{◌≡◌};
ghost use Rattle.origin_core.specs.Replies.{method_of, is_head};

/// A request's method (RFC 9110 section 9.3). Its case matters.
#[derive(Clone, Copy, Debug, PartialEq, Eq)]
pub(crate) enum Method {
    Get,
    Head,
    Put,
    Other,
}

impl Method {
    pub(crate) fn of(name: &[u8]) -> Method
        ensures { result ≡ method_of name.now }
    {
        if name == b"GET".as_slice() {
            return Method::Get;
        }
        if name == b"HEAD".as_slice() {
            return Method::Head;
        }
        if name == b"PUT".as_slice() {
            return Method::Put;
        }
        Method::Other
    }

    pub(crate) fn is_head(self) -> bool
        ensures { result ≡ is_head self }
    {
        match self {
            Method::Head => true,
            _ => false,
        }
    }
}
