//! Comparing texts that show a secret.
ghost use Rattle.std.specs.Prelude.{◌≡◌, bytes_eq};

/// Whether the two texts are the same. All bytes are compared wherever the first two differ, so that the time that it takes
/// doesn't tell their place. No proof speaks of time.
pub fn same_bytes(a: &[u8], b: &[u8]) -> bool
    ensures { result ≡ bytes_eq a.now b.now }
{
    let mut same = true;
    let (mut left, mut right) = (a, b);
    'bytes: while let ([x, xs @ ..], [y, ys @ ..]) = (left, right) {
        same &= *x == *y;
        left = xs;
        right = ys;
    }
    same && left.is_empty() && right.is_empty()
}
