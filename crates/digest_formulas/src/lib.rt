//! The values of HTTP Digest (RFC 7616 section 3.4).
//!
//! No call takes memory.
#![tactic(auto)]

mod response_hash;
mod responses;
mod secrets;

pub use response_hash::ResponseHash;
pub use responses::{response, rspauth};
pub use secrets::{ha1, session_ha1, user_hash};

#[cfg(test)]
mod tests {
    use super::*;
    use auth_hash::{Algorithm, Qop, hash_joined};

    const NONCE: &[u8] = b"7ypf/xlj9XXwfDPEoM4URrv/xwf94BcCAzFZH4GiTo0v";

    const CNONCE: &[u8] = b"f2/wE4q74E6zIJEtWaHKaf5wv/H5QzzpXusqGemxURZJ";

    const NAME: &[u8] = b"Mufasa";

    const REALM: &[u8] = b"http-auth@example.org";

    const PASSWORD: &[u8] = b"Circle of Life";

    const NC: &[u8; 8] = b"00000001";

    const URI: &[u8] = b"/dir/index.html";

    /// The two responses of RFC 7616 section 3.9.1.
    #[test]
    fn responses_of_the_standard(rt: HostRuntime) {
        let cases = [
            (Algorithm::Md5, "8ca523f5e9506fed4657c9700eebdbec"),
            (
                Algorithm::Sha256,
                "753927fa0e85d155564e2e272a28d1802ca10daf4496794697cf8db5856cb6c1",
            ),
        ];
        for (algorithm, wanted) in cases {
            let secret = ha1(algorithm, NAME, REALM, PASSWORD);
            let value = response(
                algorithm,
                &secret,
                NONCE,
                NC,
                CNONCE,
                Qop::Auth,
                b"GET",
                URI,
                b"",
            );
            assert_eq!(rt; value.bytes(), wanted.as_bytes());
        }
    }

    /// The example of RFC 2617 section 3.5.
    #[test]
    fn response_of_the_older_standard(rt: HostRuntime) {
        let secret = ha1(
            Algorithm::Md5,
            NAME,
            b"testrealm@host.com",
            b"Circle Of Life",
        );
        assert_eq!(rt;
            secret.bytes(),
            b"939e7578ed9e3c518a452acee763bce9".as_slice()
        );
        let action = hash_joined(Algorithm::Md5, &[b"GET", URI]);
        assert_eq!(rt;
            action.bytes(),
            b"39aff3a2bab6126f332b942af96d3366".as_slice()
        );
        let value = response(
            Algorithm::Md5,
            &secret,
            b"dcd98b7102dd2f0e8b11d0f600bfb0c093",
            NC,
            b"0a4f113b",
            Qop::Auth,
            b"GET",
            URI,
            b"",
        );
        assert_eq!(rt;
            value.bytes(),
            b"6629fae49393a05397450978507c4ef1".as_slice()
        );
    }

    /// Values that Python's hashlib gave, of a session with a covered body.
    #[test]
    fn session_values_of_another_program(rt: HostRuntime) {
        let secret = ha1(Algorithm::Sha256, NAME, REALM, PASSWORD);
        let session = session_ha1(Algorithm::Sha256, &secret, NONCE, CNONCE);
        let qop = Qop::AuthInt;
        let sent = response(
            Algorithm::Sha256,
            &session,
            NONCE,
            NC,
            CNONCE,
            qop,
            b"PUT",
            URI,
            b"hello\n",
        );
        let wanted = "bca21f4c7d7e8bf70d96361085370c7d219947abc1b8cd628f710917b89bed5b";
        assert_eq!(rt; session.bytes(), wanted.as_bytes());
        let wanted = "aca622932da75c65df8c53f9e4cc0f6affaaa2f6d2f3ec035aac6819c3e2f505";
        assert_eq!(rt; sent.bytes(), wanted.as_bytes());
    }

    /// Values that Python's hashlib gave, of a server and of a hidden name.
    #[test]
    fn server_values_of_another_program(rt: HostRuntime) {
        let secret = ha1(Algorithm::Sha256, NAME, REALM, PASSWORD);
        let server = rspauth(
            Algorithm::Sha256,
            &secret,
            NONCE,
            NC,
            CNONCE,
            Qop::Auth,
            URI,
            b"",
        );
        let hidden = user_hash(
            Algorithm::Sha512t256,
            "Jäsøn Doe".as_bytes(),
            b"api@example.org",
        );
        let wanted = "86d3b25618d41854ca5039a5d7e53ff6355d5134a9b1fb088a78ac3c462195a0";
        assert_eq!(rt; server.bytes(), wanted.as_bytes());
        let wanted = "793263caabb707a56211940d90411ea4a575adeccb7e360aeb624ed06ece9b0b";
        assert_eq!(rt; hidden.bytes(), wanted.as_bytes());
    }
}
