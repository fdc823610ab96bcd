//! What holds of texts of secrets, and of changes.
ghost use Rattle.std.specs.Prelude.{◌≡◌, ◌≢◌, ◌&&◌, ℕ, false, List, None, bytes_eq, if◌then◌else◌};
ghost use Rattle.auth_hash.specs.declared.algorithm.Algorithm.{Algorithm};
ghost use Rattle.cred_store.specs.Changes.{put, with_flag, without};
ghost use Rattle.cred_store.specs.Faults.{FirstFault};
ghost use Rattle.cred_store.specs.LookUps.{ha1_of, is_keyed, keys_of, scram_of, secret_of};
ghost use Rattle.cred_store.specs.declared.entry.Entry.{Entry as EntryValue};
ghost use Rattle.cred_store.specs.declared.error.StoreError.{StoreError as ErrorValue};
ghost use Rattle.cred_store.specs.declared.error.StoreError.TheVariants.{OutOfMemory};
ghost use Rattle.cred_store.specs.declared.kind.SecretKind.TheVariants as kinds;

/// A text has one first faulty line at most, with one fault. This is a law of the definitions, and
/// the function does nothing.
pub fn has_one_first_fault()
    ensures { (text : List ℕ) (one other : ErrorValue) → one ≢ OutOfMemory → other ≢ OutOfMemory → FirstFault text one
        → FirstFault text other → one ≡ other }
{}

/// After an entry is put in, its key has what it says; after those of a name and a realm are left out, these have
/// nothing; and every other look-up is as before. This is a law of the definitions, and the function does nothing.
pub fn changes_what_is_named()
    ensures put { (entry : EntryValue) (entries : List EntryValue) (name realm : List ℕ) (alg : Algorithm)
        → secret_of name realm alg (put entry entries)
        ≡ (if is_keyed name realm (kinds.Digest alg) entry then ha1_of entry else secret_of name realm alg entries) }
    ensures put_keys { (entry : EntryValue) (entries : List EntryValue) (name realm : List ℕ)
        → scram_of name realm (put entry entries)
        ≡ (if is_keyed name realm kinds.ScramSha256 entry then keys_of entry else scram_of name realm entries) }
    ensures without { (name realm : List ℕ) (entries : List EntryValue) (user space : List ℕ) (alg : Algorithm)
        → secret_of user space alg (without name realm entries)
        ≡ (if bytes_eq user name && bytes_eq space realm then None else secret_of user space alg entries) }
    ensures without_keys { (name realm : List ℕ) (entries : List EntryValue) (user space : List ℕ)
        → scram_of user space (without name realm entries)
        ≡ (if bytes_eq user name && bytes_eq space realm then None else scram_of user space entries) }
{}

/// After the entries of a name and a realm are given the flag `off`, these have nothing, and every other look-up is as
/// before. This is a law of the definitions, and the function does nothing.
pub fn disables_what_is_named()
    ensures secrets { (name realm : List ℕ) (entries : List EntryValue) (user space : List ℕ) (alg : Algorithm)
        → secret_of user space alg (with_flag name realm false entries)
        ≡ (if bytes_eq user name && bytes_eq space realm then None else secret_of user space alg entries) }
    ensures keys { (name realm : List ℕ) (entries : List EntryValue) (user space : List ℕ)
        → scram_of user space (with_flag name realm false entries)
        ≡ (if bytes_eq user name && bytes_eq space realm then None else scram_of user space entries) }
{}
