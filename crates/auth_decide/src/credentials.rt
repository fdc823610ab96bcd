//! The credentials of a request, as the lines of their field say them.
ghost use Rattle.std.specs.Prelude.{◌≡◌, ◌∷◌, [], ℕ, IfOk, List};
ghost use Rattle.http_wire.specs.Values.{AreValues};
ghost use Rattle.auth_decide.specs.Credentials.{LinesSay, Reads, credentials_lines, nonce_in, other_scheme, presented};

use crate::scram_message::ScramMessage;
use crate::scram_reading::{message_in, name_of};
use crate::verdict::Why;
use auth_grammar::{GrammarError, Item, OutOfMemory, Role, read_credentials, same_name};
use digest_fields::{DigestCredentials, FieldError};
use http_wire::{Request, Values};
use nonce_shard::TableName;
use scram_text::SCRAM_SCHEME;
use std::alloc::Global;
use std::fmt;

/// What the field with credentials says (RFC 9110 section 11.4). `Debug` prints none of the credentials.
#[derive(Drop)]
pub enum CredentialsField {
    /// There is no such field.
    Absent,
    /// It is one line, which spells this item with no parameter twice.
    Item(Item),
    /// It is several lines, or one that spells no item or one with a parameter twice.
    Malformed,
}

impl fmt::Debug for CredentialsField {
    fn fmt<W: fmt::Write>(&self, f: &mut fmt::Formatter<W>) -> fmt::Result {
        f.write_str(match self {
            CredentialsField::Absent => "Absent",
            CredentialsField::Item(_) => "Item(...)",
            CredentialsField::Malformed => "Malformed",
        })
    }
}

/// The credentials of a request, as its lines say them.
#[derive(Drop)]
pub struct RequestCredentials {
    /// What their field says.
    pub field: CredentialsField,
    /// The name of the nonce table that the nonce of Digest credentials is, if it is one.
    pub nonce: Option<TableName>,
    /// What it says in SCRAM-SHA-256.
    pub scram: ScramMessage,
}

impl fmt::Debug for RequestCredentials {
    fn fmt<W: fmt::Write>(&self, f: &mut fmt::Formatter<W>) -> fmt::Result {
        f.debug_struct("RequestCredentials")
            .field("field", &self.field)
            .field("nonce", &self.nonce)
            .field("scram", &self.scram)
            .finish()
    }
}

/// What a request presents, by what its field says. `Debug` prints none of the credentials.
#[derive(Drop)]
pub enum Presented {
    /// No credentials.
    Nothing,
    /// Credentials out of form.
    Malformed(Why),
    /// Credentials of a scheme that is neither Digest nor SCRAM-SHA-256.
    OtherScheme,
    /// Credentials of Digest whose parameters are accepted.
    Digest(DigestCredentials),
    /// Credentials of SCRAM-SHA-256.
    Scram,
}

impl fmt::Debug for Presented {
    fn fmt<W: fmt::Write>(&self, f: &mut fmt::Formatter<W>) -> fmt::Result {
        f.write_str(match self {
            Presented::Nothing => "Nothing",
            Presented::Malformed(_) => "Malformed(...)",
            Presented::OtherScheme => "OtherScheme",
            Presented::Digest(_) => "Digest(...)",
            Presented::Scram => "Scram",
        })
    }
}

/// What the one line of the field says.
fn line_says(alloc: Global, line: &[u8]) -> Result<CredentialsField, OutOfMemory>
    ensures { IfOk result (λ field. LinesSay (line.now ∷ []) field) }
{
    match read_credentials(alloc, line) {
        Ok(item) => Ok(CredentialsField::Item(item)),
        Err(GrammarError::OutOfMemory) => Err(OutOfMemory),
        Err(_) => Ok(CredentialsField::Malformed),
    }
}

/// What the lines of the field say.
fn field_of(alloc: Global, values: Values) -> Result<CredentialsField, OutOfMemory>
    ensures { (lines : List (List ℕ)) → AreValues lines values.entry → IfOk result (λ field. LinesSay lines field) }
{
    match values {
        Values::Absent => Ok(CredentialsField::Absent),
        Values::One(line) => line_says(alloc, line),
        Values::Several => Ok(CredentialsField::Malformed),
    }
}

/// What the field presents. It is read no further than this.
fn presented_by(alloc: Global, field: &CredentialsField) -> Result<Presented, OutOfMemory>
    ensures { IfOk result (λ presents. presents ≡ presented field.now) }
{
    let item = match field {
        CredentialsField::Absent => return Ok(Presented::Nothing),
        CredentialsField::Malformed => return Ok(Presented::Malformed(Why::Credentials)),
        CredentialsField::Item(item) => item,
    };
    if !same_name(item.scheme.bytes(), b"Digest") {
        return Ok(other_scheme(item));
    }
    match DigestCredentials::from_item(alloc, item) {
        Ok(credentials) => Ok(Presented::Digest(credentials)),
        Err(FieldError::OutOfMemory) => Err(OutOfMemory),
        Err(_) => Ok(Presented::Malformed(Why::Field)),
    }
}

/// What credentials of another scheme than Digest are.
fn other_scheme(item: &Item) -> Presented
    ensures { result ≡ other_scheme item.now }
{
    if same_name(item.scheme.bytes(), SCRAM_SCHEME) {
        Presented::Scram
    } else {
        Presented::OtherScheme
    }
}

/// The nonce of Digest credentials, and an empty text where there are none.
fn nonce_in(presented: &Presented) -> &[u8]
    ensures { result.now ≡ nonce_in presented.now }
{
    match presented {
        Presented::Digest(credentials) => credentials.nonce.bytes(),
        _ => b"",
    }
}

/// The credentials that the lines of the field say, and what they present.
fn read_values(
    alloc: Global,
    values: Values,
) -> Result<(RequestCredentials, Presented), OutOfMemory>
    ensures reads { (lines : List (List ℕ)) → AreValues lines values.entry → IfOk result (λ read. Reads lines read.0) }
    ensures presented { IfOk result (λ read. read.1 ≡ presented read.0.field) }
{
    let field = field_of(alloc, values)?;
    let presented = presented_by(alloc, &field)?;
    let nonce = name_of(nonce_in(&presented));
    let scram = message_in(alloc, &field)?;
    Ok((
        RequestCredentials {
            field,
            nonce,
            scram,
        },
        presented,
    ))
}

/// The credentials of a request for a role, and what they present.
pub(crate) fn read_request(
    alloc: Global,
    role: Role,
    request: &Request,
) -> Result<(RequestCredentials, Presented), OutOfMemory>
    ensures reads { IfOk result (λ read. Reads (credentials_lines role request.now) read.0) }
    ensures presented { IfOk result (λ read. read.1 ≡ presented read.0.field) }
{
    read_values(alloc, request.fields.values(role.credentials_field()))
}
