//! What follows from the definitions of the client alone.
ghost use Rattle.client_core.specs.Laws.{GivesOnce, GivesSrOnce, MutualExactly};

/// `Mutual` is told exactly where a response that is no challenge carries the server's proof for what was sent.
pub fn mutual_exactly()
    ensures { MutualExactly }
{}

/// However a client is called, it never gives one nonce with one count twice, also after want of memory.
pub fn gives_once()
    ensures { GivesOnce }
{}

/// However a client is called, it never gives one `sr` of SCRAM-SHA-256 with one count twice, also after want of memory.
pub fn gives_sr_once()
    ensures { GivesSrOnce }
{}
