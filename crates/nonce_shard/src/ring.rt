//! The places of a ring, which holds the latest of the things that were made in turn.
ghost use Rattle.std.specs.Prelude.{◌≡◌, ◌<◌};
ghost use Rattle.nonce_shard.specs.Ring.{place_of};

/// The place of a serial, where it was made and fewer than `size` were made since.
pub fn find_place(serial: u64, made: u64, size: usize) -> Option<usize>
    requires { 0 < size }
    ensures { result ≡ place_of serial made size }
{
    if serial < made && made - serial - 1 < size as u64 {
        Some((serial % size as u64) as usize)
    } else {
        None
    }
}
