//! Bytes that are given from the first on.
ghost use Rattle.std.specs.Prelude.{◌≡◌, ◌≤◌, ◌<◌, ◌+◌, ◌-◌, ◌^◌, ◌++◌, [], length, min, take, drop};

use auth_grammar::Octets;

/// Bytes, and how many of them were given.
#[derive(Drop)]
pub(crate) struct Supply {
    pub(crate) bytes: Octets,
    pub(crate) at: usize,
    ghost within: { at ≤ length bytes },
}

impl Supply {
    pub(crate) fn new(bytes: Octets) -> Supply
        ensures bytes { result.bytes ≡ bytes }
        ensures at { result.at ≡ 0 }
    {
        Supply { bytes, at: 0 }
    }

    /// Gives as much as there is, fits and is allowed.
    pub(crate) fn give(&mut self, limit: usize, into: &mut [u8]) -> usize
        requires { 0 < limit }
        ensures bytes { self.new.bytes ≡ self.old.bytes }
        ensures at { self.new.at ≡ self.old.at + result }
        ensures bound { result ≤ length into.new }
        ensures all { result ≡ min (min limit (length into.old)) (length (drop self.old.at self.old.bytes)) }
        ensures given { drop self.old.at self.old.bytes ≡ take result into.new ++ drop self.new.at self.new.bytes }
        ensures at_end { result ≡ 0 → 0 < length into.new → drop self.new.at self.new.bytes ≡ [] }
    {
        let count = copy_front(&self.bytes.bytes()[self.at..], limit, into);
        self.at += count;
        count
    }

    /// How many bytes were given, which is fewer than 2^63.
    pub(crate) fn given(&self) -> usize
        ensures given { result ≡ self.now.at }
        ensures bound { result < 2 ^ 63 }
    {
        let _all = self.bytes.len();
        self.at
    }
}

/// Copies as much as there is, fits and is allowed.
fn copy_front(from: &[u8], limit: usize, into: &mut [u8]) -> usize
    requires { 0 < limit }
    ensures in_from { result ≤ length from.now }
    ensures in_into { result ≤ length into.new }
    ensures all { result ≡ min (min limit (length into.old)) (length from.now) }
    ensures copied { take result into.new ≡ take result from.now }
    ensures some { result ≡ 0 → 0 < length into.new → from.now ≡ [] }
{
    let count = limit.min(into.len()).min(from.len());
    into[..count].copy_from_slice(&from[..count]);
    count
}
