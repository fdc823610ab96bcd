//! The three grammars.

/// By which grammar a text is read.
#[derive(Clone, Copy, Debug, PartialEq, Eq)]
pub enum Grammar {
    /// Any number of challenges, as in `WWW-Authenticate` (RFC 9110 section 11.6.1).
    Challenges,
    /// One item, as in `Authorization` (RFC 9110 section 11.6.2).
    Credentials,
    /// Parameters alone, as in `Authentication-Info` (RFC 9110 section 11.6.3).
    Params,
}
