// Copies from a front to a front.
ghost use Rattle.std.specs.Prelude.{◌≡◌, min, length, take};

/// Copies as many bytes as both have and `most` allows, and answers how many.
pub fn copy_front(from: &[u8], buf: &mut [u8], most: usize) -> usize
    ensures count { result ≡ min (min (length buf.old) most) (length from.now) }
    ensures front { take result buf.new ≡ take result from.now }
{
    let count = buf.len().min(most).min(from.len());
    buf[..count].copy_from_slice(&from[..count]);
    count
}
