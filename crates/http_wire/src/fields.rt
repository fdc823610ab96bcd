//! The fields of a message (RFC 9110 section 5).
ghost use Rattle.std.specs.Prelude.{◌≡◌, ◌≤◌, ◌<◌, ◌+◌, [], ◌∷◌, true, All, length, map, IfOk};
ghost use Rattle.std.specs.List.{list_all};
ghost use Rattle.auth_grammar.specs.Names.{same_name};
ghost use Rattle.httparse.specs.Spans.{IsHeaderWithin, header_bytes};
ghost use Rattle.http_header.specs.FieldName.{is_field_name};
ghost use Rattle.http_header.specs.Token.{lowercase};
ghost use Rattle.http_wire.specs.Fields.{pairs_size, fields_of, values_of};
ghost use Rattle.http_wire.specs.Values.{AreValues, has_token};
ghost use Rattle.http_wire.specs.declared.front.TheConstants.{HEAD_LIMIT};

use crate::pair::{Pair, PairList};
use crate::values::{Values, has_part};
use auth_grammar::{Octets, OctetsList, OutOfMemory, Sequence, same_name};
use http_header::{HeaderMap, HeaderName, HeaderNameError};
use httparse::spans::HeaderSpan;
use std::alloc::Global;
use std::marker::Model;

/// The fields of a message. Contracts see the list of pairs of a name in lower case and a value, in which all lines of a
/// name stand together, where the first of them stood.
///
/// The names and values, with one byte more for each pair, are together at most 16,384 bytes.
#[derive(Drop)]
pub struct Fields {
    map: HeaderMap<Octets>,
}

impl Model for Fields {
    ghost use Rattle.std.specs.Prelude.{List, ℕ, ◌≤◌};
    ghost use Rattle.http_header.specs.HeaderMap.{pairs};
    ghost use Rattle.http_wire.specs.Fields.{pairs_size};
    ghost use Rattle.http_wire.specs.declared.front.TheConstants.{HEAD_LIMIT};

    ghost Value = { List (List ℕ × List ℕ) };

    ghost view = { λ f. pairs f.map };

    ghost invariant = { λ f. pairs_size (pairs f.map) ≤ HEAD_LIMIT };
}

impl Fields {
    /// No fields.
    pub fn new(alloc: Global) -> Fields
        ensures { result ≡ [] }
    {
        Fields {
            map: HeaderMap::<Octets>::empty(alloc),
        }
    }

    /// The one field of this name, in lower case, with this value.
    pub fn one(alloc: Global, name: &[u8], value: Octets) -> Result<Fields, OutOfMemory>
        requires name { is_field_name name.now ≡ true }
        requires size { length name.now + length value < HEAD_LIMIT }
        ensures { IfOk result (λ fields. fields ≡ (lowercase name.now, value) ∷ []) }
    {
        let mut map = HeaderMap::<Octets>::empty(alloc);
        let Ok(name) = HeaderName::from_bytes(alloc, name) else {
            return Err(OutOfMemory);
        };
        let Ok(_) = map.append(name, value) else {
            return Err(OutOfMemory);
        };
        Ok(Fields { map })
    }

    /// The fields at the spans of a head, or None where a name is too long for a field.
    pub(crate) fn read(
        alloc: Global,
        text: &[u8],
        headers: &[HeaderSpan],
    ) -> Result<Option<Fields>, OutOfMemory>
        requires within { All (IsHeaderWithin (length text.now)) headers.now }
        requires short { pairs_size (map (header_bytes text.now) headers.now) ≤ HEAD_LIMIT }
        ensures { IfOk result (λ fields. fields ≡ fields_of (map (header_bytes text.now) headers.now)) }
    {
        let mut map = HeaderMap::<Octets>::empty(alloc);
        for header in headers {
            let name = match HeaderName::from_bytes(alloc, header.name.of(text)) {
                Ok(name) => name,
                Err(HeaderNameError::Invalid) => return Ok(None),
                Err(HeaderNameError::OutOfMemory) => return Err(OutOfMemory),
            };
            let value = Octets::of(alloc, header.value.of(text))?;
            // The map is full only at 32,768 names.
            let Ok(_) = map.append(name, value) else {
                return Err(OutOfMemory);
            };
        }
        Ok(Some(Fields { map }))
    }

    /// How many pairs there are.
    pub fn len(&self) -> usize
        ensures len { result ≡ length self.now }
        // All names and values, with one byte more for each pair, are no longer than a head may be.
        ensures size { pairs_size self.now ≤ HEAD_LIMIT }
    {
        self.map.iter().count()
    }

    /// The values of a name, in their order, whatever the case of the name.
    pub fn lines(&self, alloc: Global, name: &[u8]) -> Result<OctetsList, OutOfMemory>
        ensures { IfOk result (λ lines. lines ≡ values_of self.now (lowercase name.now)) }
    {
        let mut lower = Vec::from_slice(alloc, name)?;
        lower.as_mut_slice().make_ascii_lowercase();
        let mut lines = Sequence::new(alloc);
        for (written, value) in self.map.iter() {
            if written.as_bytes() == lower.as_slice() {
                lines.push(value.copy()?)?;
            }
        }
        Ok(lines)
    }

    /// All pairs.
    pub fn pairs(&self, alloc: Global) -> Result<PairList, OutOfMemory>
        ensures pairs { IfOk result (λ pairs. map (λ p. (p.name, p.value)) pairs ≡ self.now) }
        ensures size { pairs_size self.now ≤ HEAD_LIMIT }
    {
        let mut pairs = Sequence::new(alloc);
        for (name, value) in self.map.iter() {
            pairs.push(Pair {
                name: Octets::of(alloc, name.as_bytes())?,
                value: value.copy()?,
            })?;
        }
        Ok(pairs)
    }

    /// The one value of a name, which is given in lower case, or that it has none or several. It takes no memory.
    pub fn values(&self, name: &[u8]) -> Values<'_>
        ensures { AreValues (values_of self.now name.now) result }
    {
        let mut found = Values::Absent;
        for (written, value) in self.map.iter() {
            if written.as_bytes() == name {
                match found {
                    Values::Absent => found = Values::One(value.bytes()),
                    _ => return Values::Several,
                }
            }
        }
        found
    }

    /// Whether each value of a name is that text, without regard to case.
    pub(crate) fn all_are(&self, name: &[u8], text: &[u8]) -> bool
        ensures { result ≡ list_all (λ value. same_name value text.now) (values_of self.now name.now) }
    {
        for (written, value) in self.map.iter() {
            if written.as_bytes() == name && !same_name(value.bytes(), text) {
                return false;
            }
        }
        true
    }

    /// Whether a value of this name, which is given in lower case, has that token between its commas, whatever the
    /// token's case. Spaces and tabs round a part don't count (RFC 9110 section 5.6.1).
    pub fn has_token(&self, name: &[u8], token: &[u8]) -> bool
        ensures { result ≡ has_token (values_of self.now name.now) token.now }
    {
        for (written, value) in self.map.iter() {
            if written.as_bytes() == name && has_part(value.bytes(), token) {
                return true;
            }
        }
        false
    }
}
