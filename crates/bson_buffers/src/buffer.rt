// Copying into a buffer.
ghost use Rattle.std.specs.Prelude.{◌≡◌, ◌++◌, length, take, drop, min};

/// Copies as many of a piece's first elements to the front of a buffer as fit, and returns how many.
pub fn put_front<T: Copy>(piece: &[T], buffer: &mut [T]) -> usize
    ensures count { result ≡ min (length piece.now) (length buffer.old) }
    ensures put { buffer.new ≡ take (length buffer.old) piece.now ++ drop (length piece.now) buffer.old }
{
    let n = piece.len().min(buffer.len());
    buffer[..n].copy_from_slice(&piece[..n]);
    n
}
