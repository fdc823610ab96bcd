//! The exchange of RFC 7677 section 3.
use crate::{client_proof, keys_of, proof_matches, salted, server_signature};
use arrayvec::ArrayVec;
use base64::engine::general_purpose::STANDARD;
use std::test::Fail;

const PASSWORD: &[u8] = b"pencil";

const SALT: &[u8] = b"W22ZaJ0SNY7soEsUEjb6gQ==";

const BARE: &[u8] = b"n=user,r=rOprNGfwEbeRWgbNEkqO";

const FIRST: &[u8] =
    b"r=rOprNGfwEbeRWgbNEkqO%hvYDpWUa2RaTCAfuxFIlj)hNlF$k0,s=W22ZaJ0SNY7soEsUEjb6gQ==,i=4096";

const WITHOUT: &[u8] = b"c=biws,r=rOprNGfwEbeRWgbNEkqO%hvYDpWUa2RaTCAfuxFIlj)hNlF$k0";

#[test]
fn exchange_of_the_standard(rt: HostRuntime) -> Result<(), Fail> {
    let bytes = STANDARD.decode(rt.alloc(), SALT)?;
    let mut salt = ArrayVec::new();
    assert!(rt; salt.try_extend_from_slice(bytes.as_slice()).is_ok());
    let keys = keys_of(PASSWORD, &salt, 4096);
    let slow = salted(PASSWORD, bytes.as_slice(), 4096);
    let mut proof = client_proof(&slow, BARE, FIRST, WITHOUT);
    let signature = server_signature(&keys.server, BARE, FIRST, WITHOUT);
    let text = STANDARD.encode(rt.alloc(), &proof)?;
    assert_eq!(rt;
        text.as_str(),
        "dHzbZapWIk4jUhN+Ute9ytag9zjfMHgsqmmiz7AndVQ="
    );
    let text = STANDARD.encode(rt.alloc(), &signature)?;
    assert_eq!(rt;
        text.as_str(),
        "6rriTRBi23WpRR/wtup+mMhUZUn/dB5nLTJRsjl95G4="
    );
    assert!(rt; proof_matches(&keys.stored, BARE, FIRST, WITHOUT, &proof));
    proof[31] ^= 1;
    assert!(rt; !proof_matches(&keys.stored, BARE, FIRST, WITHOUT, &proof));
    Ok(())
}
