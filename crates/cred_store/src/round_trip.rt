//! What is written is read back.
ghost use Rattle.std.specs.Prelude.{◌≡◌, IfErr, IfOk};
ghost use Rattle.cred_store.specs.declared.error.StoreError.TheVariants.{OutOfMemory as NoMemory};

use crate::error::StoreError;
use crate::store::Store;
use std::alloc::Global;

/// Writes a store and reads it again, which gives the same store. Only want of memory keeps from it.
pub fn reads_what_is_written(alloc: Global, store: &Store) -> Result<Store, StoreError>
    ensures ok { IfOk result (λ again. again ≡ store.now) }
    ensures err { IfErr result (λ error. error ≡ NoMemory) }
{
    let text = store.write(alloc)?;
    Store::read(alloc, text.bytes())
}
