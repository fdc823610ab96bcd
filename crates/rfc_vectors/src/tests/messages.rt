//! The exchange of RFC 7677 section 3, message by message.
use scram_proof::{client_proof, proof_matches, salted, server_key, server_signature, stored_key};
use scram_text::{ClientFinal, ClientFirst, Flag, ServerFinal, ServerFirst};
use std::test::Fail;

const FIRST: &[u8] = b"n,,n=user,r=rOprNGfwEbeRWgbNEkqO";

const ANSWER: &[u8] =
    b"r=rOprNGfwEbeRWgbNEkqO%hvYDpWUa2RaTCAfuxFIlj)hNlF$k0,s=W22ZaJ0SNY7soEsUEjb6gQ==,i=4096";

const LAST: &[u8] =
    b"c=biws,r=rOprNGfwEbeRWgbNEkqO%hvYDpWUa2RaTCAfuxFIlj)hNlF$k0,p=dHzbZapWIk4jUhN+Ute9ytag9zjfMHgsqmmiz7AndVQ=";

const END: &[u8] = b"v=6rriTRBi23WpRR/wtup+mMhUZUn/dB5nLTJRsjl95G4=";

/// What the client sends.
#[test]
fn a_client_of_scram(rt: HostRuntime) -> Result<(), Fail> {
    let alloc = rt.alloc();
    let first = ClientFirst::new(alloc, Flag::N, b"user", b"rOprNGfwEbeRWgbNEkqO")?;
    assert_eq!(rt; first.write(alloc)?.bytes(), FIRST);
    let Ok(answer) = ServerFirst::read(alloc, ANSWER) else {
        return Ok(assert!(rt; false));
    };
    let slow = salted(b"pencil", answer.salt.bytes(), answer.i);
    let without = ClientFinal::without(alloc, Flag::N, answer.nonce.bytes())?;
    let proof = client_proof(
        &slow,
        first.bare.bytes(),
        answer.text.bytes(),
        without.bytes(),
    );
    let last = ClientFinal::new(alloc, Flag::N, answer.nonce.bytes(), &proof)?;
    assert_eq!(rt; last.write(alloc)?.bytes(), LAST);
    Ok(())
}

/// What the server makes of it.
#[test]
fn a_server_of_scram(rt: HostRuntime) -> Result<(), Fail> {
    let alloc = rt.alloc();
    let (Ok(first), Ok(answer), Ok(last)) = (
        ClientFirst::read(alloc, FIRST),
        ServerFirst::read(alloc, ANSWER),
        ClientFinal::read(alloc, LAST),
    ) else {
        return Ok(assert!(rt; false));
    };
    let slow = salted(b"pencil", answer.salt.bytes(), answer.i);
    let (bare, text, without) = (
        first.bare.bytes(),
        answer.text.bytes(),
        last.without.bytes(),
    );
    assert!(rt; proof_matches(&stored_key(&slow), bare, text, without, &last.proof));
    let signature = server_signature(&server_key(&slow), bare, text, without);
    assert_eq!(rt;
        ServerFinal::Signature(signature).write(alloc)?.bytes(),
        END
    );
    Ok(())
}
