//! A request that came, and when.
use http_wire::Request;
use std::fmt;

/// A request that is answered. `Debug` prints nothing of the request itself.
#[derive(Clone, Copy)]
pub struct IncomingRequest<'q> {
    /// The request, whole.
    pub request: &'q Request,
    /// Whether the connection closes after its reply.
    pub last: bool,
    /// When it came, in seconds since 1970.
    pub moment: u64,
}

impl<'q> fmt::Debug for IncomingRequest<'q> {
    fn fmt<W: fmt::Write>(&self, f: &mut fmt::Formatter<W>) -> fmt::Result {
        f.debug_struct("IncomingRequest")
            .field("last", &self.last)
            .field("moment", &self.moment)
            .finish()
    }
}
