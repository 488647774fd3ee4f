// Copies of the front of a slice, as much of it as fits.
ghost use Rattle.std.specs.Prelude.{◌≡◌, ◌≤◌, ◌+◌, ◌-◌, ◌++◌, length, take, drop, min};

/// Copies the first `n` bytes to the front of the second slice.
pub fn copy_front(from: &[u8], to: &mut [u8], n: usize)
    requires there { n ≤ length from.now }
    requires room { n ≤ length to.old }
    ensures { to.new ≡ take n from.now ++ drop n to.old }
{
    to[..n].copy_from_slice(&from[..n]);
}

/// Copies as many bytes as both have to the front of the second slice, and returns how many.
pub fn copy_prefix(from: &[u8], to: &mut [u8]) -> usize
    ensures count { result ≡ min (length from.now) (length to.old) }
    ensures copied { to.new ≡ take result from.now ++ drop result to.old }
{
    let n = from.len().min(to.len());
    copy_front(from, to, n);
    n
}

/// Copies to a place as much of the front of a piece as there is room for, and returns how many bytes.
pub fn fill_from(room: &mut [u8], at: usize, piece: &[u8]) -> usize
    requires { at ≤ length room.old }
    ensures count { result ≡ min (length piece.now) (length room.old - at) }
    ensures filled { take (at + result) room.new ≡ take at room.old ++ take result piece.now }
    ensures len { length room.new ≡ length room.old }
{
    copy_prefix(piece, &mut room[at..])
}
