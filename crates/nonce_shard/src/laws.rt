//! What follows from the definitions of the table alone.
ghost use Rattle.nonce_shard.specs.Laws.{AdmitsOnce, TriesOnce, NamesOne, CallsStand};

/// In no history of a shard are two uses of one count of one nonce answered Fresh.
pub fn admits_once()
    ensures { AdmitsOnce }
{}

/// In no history of a shard are two tries of one exchange answered Taken.
pub fn tries_once()
    ensures { TriesOnce }
{}

/// A text is that of at most one name.
pub fn names_one()
    ensures { NamesOne }
{}

/// The calls that a seat has made stand in the lists of its shards, one behind the other, each
/// answered as by a table of one thread behind the calls before it.
pub fn calls_stand()
    ensures { CallsStand }
{}
