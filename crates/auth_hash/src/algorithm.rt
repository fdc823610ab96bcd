//! The choices that a Digest challenge offers.
ghost use Rattle.std.specs.Prelude.{◌≡◌, ◌≢◌, IfSome, IfNone};
ghost use Rattle.auth_hash.specs.Algorithm.{algorithm_name, digits_of, same_algorithm};
ghost use Rattle.auth_hash.specs.declared.algorithm.Algorithm.{Algorithm as AlgorithmValue};
ghost use Rattle.auth_hash.specs.Qop.{qop_name};

/// A hash algorithm of HTTP Digest (RFC 7616 section 6.1). `Sha512t256` is SHA-512/256, whose name in
/// a field is `SHA-512-256`.
#[derive(Debug, Drop, Clone, Copy, PartialEq, Eq)]
pub enum Algorithm {
    Md5,
    Sha256,
    Sha512t256,
}

impl Algorithm {
    /// How a field names it, as `SHA-512-256` (RFC 7616 section 6.1).
    pub fn name(self) -> &'static [u8]
        ensures { result.now ≡ algorithm_name self }
    {
        match self {
            Algorithm::Md5 => b"MD5",
            Algorithm::Sha256 => b"SHA-256",
            Algorithm::Sha512t256 => b"SHA-512-256",
        }
    }

    /// The algorithm of this name, in exactly this spelling.
    pub fn named(name: &[u8]) -> Option<Algorithm>
        ensures some { IfSome result (λ alg. name.now ≡ algorithm_name alg) }
        ensures none { IfNone result ((alg : AlgorithmValue) → name.now ≢ algorithm_name alg) }
    {
        if name == b"MD5".as_slice() {
            return Some(Algorithm::Md5);
        }
        if name == b"SHA-256".as_slice() {
            return Some(Algorithm::Sha256);
        }
        if name == b"SHA-512-256".as_slice() {
            return Some(Algorithm::Sha512t256);
        }
        None
    }

    /// How many hexadecimal digits the text of its digest has.
    pub fn digits(self) -> usize
        ensures { result ≡ digits_of self }
    {
        match self {
            Algorithm::Md5 => 32,
            Algorithm::Sha256 | Algorithm::Sha512t256 => 64,
        }
    }

    /// Whether the two are one.
    pub fn is(self, other: Algorithm) -> bool
        ensures { result ≡ same_algorithm self other }
    {
        match (self, other) {
            (Algorithm::Md5, Algorithm::Md5) => true,
            (Algorithm::Sha256, Algorithm::Sha256) => true,
            (Algorithm::Sha512t256, Algorithm::Sha512t256) => true,
            _ => false,
        }
    }
}

/// The quality of protection (RFC 7616 section 3.3): whether a response covers the body too.
#[derive(Debug, Drop, Clone, Copy, PartialEq, Eq)]
pub enum Qop {
    Auth,
    AuthInt,
}

impl Qop {
    /// How it is written, `auth` or `auth-int`.
    pub fn name(&self) -> &'static [u8]
        ensures { result.now ≡ qop_name self.now }
    {
        match self {
            Qop::Auth => b"auth",
            Qop::AuthInt => b"auth-int",
        }
    }
}
