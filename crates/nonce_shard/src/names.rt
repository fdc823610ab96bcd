//! The texts by which nonces and exchanges are named.
ghost use Rattle.std.specs.Prelude.{◌≡◌, ◌≢◌, [], ◌∷◌, ◌++◌, length, IfSome, IfNone};
ghost use Rattle.nonce_shard.specs.declared.names.TableName.{TableName};
ghost use Rattle.nonce_shard.specs.Names.{name_bytes, name_text, kind_byte, IsName, names_eq};

use arrayvec::ArrayVec;
use base64::engine::general_purpose::STANDARD;

/// What a name is the name of.
#[derive(Clone, Copy, Debug, PartialEq, Eq)]
pub enum NameKind {
    Nonce,
    Exchange,
}

/// The name of a nonce or an exchange. Its text is what a server sends as `nonce`, `sr` or `sid`.
#[derive(Clone, Copy, Debug, PartialEq, Eq)]
pub struct TableName {
    pub kind: NameKind,
    pub shard: u16,
    pub serial: u64,
    pub random: [u8; 16],
}

impl TableName {
    /// The name that has this text, or None where no name has it.
    pub fn read(text: &[u8]) -> Option<TableName>
        ensures some { IfSome result (λ n. IsName n × (text.now ≡ name_text n)) }
        ensures none { IfNone result ((n : TableName) → IsName n → text.now ≢ name_text n) }
    {
        if text.len() > 36 {
            return None;
        }
        let mut bytes = [0; 27];
        match STANDARD.decode_slice_unchecked(text, &mut bytes) {
            Ok(count) => { if count == 27 { name_of(&bytes) } else { None } }
            Err(_) => None,
        }
    }

    /// The base64 of the name's 27 bytes (RFC 4648 section 4), which needs no padding.
    pub fn text(&self) -> [u8; 36]
        ensures { result ≡ name_text self.now }
    {
        let bytes = bytes_of(self);
        let mut text = [0; 36];
        let _ = STANDARD.encode_slice(bytes.as_slice(), &mut text);
        text
    }
}

pub fn is_same(a: &TableName, b: &TableName) -> bool
    ensures { result ≡ names_eq a.now b.now }
{
    a == b
}

fn bytes_of(name: &TableName) -> ArrayVec<u8, 27>
    ensures { result.items ≡ name_bytes name.now }
{
    let mut bytes = ArrayVec::new();
    bytes.push(match name.kind {
        NameKind::Nonce => 1,
        NameKind::Exchange => 2,
    });
    let _ = bytes.try_extend_from_slice(&name.shard.to_be_bytes());
    let _ = bytes.try_extend_from_slice(&name.serial.to_be_bytes());
    let _ = bytes.try_extend_from_slice(&name.random);
    bytes
}

fn kind_of(byte: u8) -> Option<NameKind>
    ensures some { IfSome result (λ k. kind_byte k ≡ byte) }
    ensures none { IfNone result ((k : _) → kind_byte k ≢ byte) }
{
    match byte {
        1 => Some(NameKind::Nonce),
        2 => Some(NameKind::Exchange),
        _ => None,
    }
}

fn name_of(bytes: &[u8]) -> Option<TableName>
    requires { length bytes.now ≡ 27 }
    ensures some { IfSome result (λ n. IsName n × (bytes.now ≡ name_bytes n)) }
    ensures none { IfNone result ((n : TableName) → IsName n → bytes.now ≢ name_bytes n) }
{
    let kind = kind_of(bytes[0])?;
    let mut random = [0; 16];
    random.copy_from_slice(&bytes[11..27]);
    Some(TableName {
        kind,
        shard: u16::from_be_bytes([bytes[1], bytes[2]]),
        serial: u64::from_be_bytes([
            bytes[3], bytes[4], bytes[5], bytes[6], bytes[7], bytes[8], bytes[9], bytes[10],
        ]),
        random,
    })
}
