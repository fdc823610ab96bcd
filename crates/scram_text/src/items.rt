//! The items that carry messages (RFC 7804 section 5).
ghost use Rattle.std.specs.Prelude.{◌≡◌, IfOk};
ghost use Rattle.scram_text.specs.Items.{data_param, scram_item};

use crate::base64_texts::push_base64;
use auth_grammar::{Item, Octets, OutOfMemory, Param, ParamList, Rest};
use std::alloc::Global;

/// The scheme of SCRAM-SHA-256 (RFC 7804 section 8).
pub const SCRAM_SCHEME: &[u8] = b"SCRAM-SHA-256";

/// The item of SCRAM-SHA-256 with these parameters.
pub fn scram_item(alloc: Global, params: ParamList) -> Result<Item, OutOfMemory>
    ensures { IfOk result (λ item. item ≡ scram_item params) }
{
    Ok(Item {
        scheme: Octets::of(alloc, SCRAM_SCHEME)?,
        rest: Rest::Params(params),
    })
}

/// The parameter with a message, which stands in base64.
pub fn data_param(alloc: Global, message: &[u8]) -> Result<Param, OutOfMemory>
    ensures { IfOk result (λ made. made ≡ data_param message.now) }
{
    let mut text = Octets::new(alloc);
    push_base64(alloc, &mut text, message)?;
    Param::of(alloc, b"data", text.bytes())
}
