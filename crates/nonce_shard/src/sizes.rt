//! How much a table holds, and how long.
ghost use Rattle.std.specs.Prelude.{◌≡◌};
ghost use Rattle.nonce_shard.specs.Sizes.{standard_sizes, single_sizes};

/// The most shards that a table can have.
pub const MOST_SHARDS: u16 = 16;

/// How many nonces a shard of the standard sizes holds.
pub const NONCES: u32 = 4096;

/// How many exchanges a shard of the standard sizes holds.
pub const EXCHANGES: u32 = 1024;

/// How many seconds a nonce lives in the standard sizes: five minutes.
pub const NONCE_LIFE: u64 = 300;

/// How many seconds an exchange waits for its try in the standard sizes: one minute.
const OPEN_LIFE: u64 = 60;

/// How many seconds a finished exchange is recalled in the standard sizes: one hour.
const FINISHED_LIFE: u64 = 3600;

/// How many uses of a nonce are admitted in the standard sizes.
const USES: u32 = 1024;

/// The sizes of a table. Lives are in seconds. `nonces` and `exchanges` are for each shard: an
/// older one is dropped. `uses` is how many counts of a nonce are admitted.
#[derive(Clone, Copy, Debug, PartialEq, Eq)]
pub struct Sizes {
    pub shards: u16,
    pub nonces: u32,
    pub exchanges: u32,
    pub nonce_life: u64,
    pub open_life: u64,
    pub finished_life: u64,
    pub uses: u32,
}

impl Sizes {
    /// Sixteen shards, each of 4,096 nonces and 1,024 exchanges. A nonce lives five minutes and has 1,024 uses. An exchange
    /// waits one minute for its try, and is recalled for one hour when it is finished.
    pub fn standard() -> Sizes
        ensures { result ≡ standard_sizes }
    {
        Sizes {
            shards: MOST_SHARDS,
            nonces: NONCES,
            exchanges: EXCHANGES,
            nonce_life: NONCE_LIFE,
            open_life: OPEN_LIFE,
            finished_life: FINISHED_LIFE,
            uses: USES,
        }
    }

    /// The same with one shard.
    pub fn single() -> Sizes
        ensures { result ≡ single_sizes }
    {
        Sizes {
            shards: 1,
            ..Sizes::standard()
        }
    }
}

/// What a shard is opened with: its number, which its names have, and the sizes of its table.
#[derive(Clone, Copy, Debug, PartialEq, Eq)]
pub struct Setting {
    pub number: u16,
    pub sizes: Sizes,
}
