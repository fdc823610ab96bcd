//! What is written is read back.
ghost use Rattle.auth_grammar.specs.Answers.{ReadsItem, ReadsItems, ReadsParams};

/// Reading what was written gives what was written: of challenges, of credentials and of
/// parameters alone. This is a law of the definitions, and the function does nothing.
pub fn reads_what_is_written()
    ensures items { ReadsItems }
    ensures item { ReadsItem }
    ensures params { ReadsParams }
{}
