//! What can be shared by turns.
ghost use Rattle.std.specs.Prelude.{◌≡◌, ◌∷◌, ◌++◌, [], List, length, ◌<◌};

/// The most calls that one table answers. At a thousand million calls a second they last for 146 years.
pub const MOST_CALLS: u64 = 1 << 62;

/// An object that answers calls. It stands for the calls that it has answered, the oldest first:
/// a reply follows from them, from the object's setting, which never changes, and from the call.
///
/// `apply` is run by one thread at a time. What it takes of time, every other caller waits for.
pub trait Object {
    type Call;

    type Reply;

    type Setting;

    ghost setting: { Self → Self.Setting };

    ghost stands_for: { Self → List Self.Call → Type 0 };

    ghost reply: { Self.Setting → List Self.Call → Self.Call → Self.Reply };

    ghost fits: { Self.Call → Type 0 };

    /// Answers a call.
    fn apply(&mut self, call: &Self::Call) -> Self::Reply
        requires fits { fits call.now }
        requires stands { (past : List Self.Call) × stands_for self.old past × (length past < MOST_CALLS) }
        ensures reply { (past : List Self.Call) → stands_for self.old past → length past < MOST_CALLS
            → result ≡ reply (setting self.old) past call.now }
        ensures setting { setting self.new ≡ setting self.old }
        ensures stands { (past : List Self.Call) → stands_for self.old past → length past < MOST_CALLS
            → stands_for self.new (past ++ call.now ∷ []) };
}
