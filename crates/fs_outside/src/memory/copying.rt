//! Copying bytes from memory into a buffer.
ghost use Rattle.std.specs.Prelude.{◌≡◌, ◌≤◌, length, take, drop, min};
ghost use Rattle.fs_outside.specs.Stream.{Reads, ReadsAt};

/// Copies as many bytes from the front as fit, and returns their number.
pub fn copy_front(bytes: &[u8], buf: &mut [u8]) -> usize
    ensures count { result ≡ min (length bytes.now) (length buf.old) }
    ensures these { take result buf.new ≡ take result bytes.now }
    ensures others { drop result buf.new ≡ drop result buf.old }
{
    let n = bytes.len().min(buf.len());
    buf[..n].copy_from_slice(&bytes[..n]);
    n
}

/// Copies as many bytes from `at` on as there are and as fit, and returns their number.
pub fn read_at(bytes: &[u8], at: u64, buf: &mut [u8]) -> usize
    ensures fits { result ≤ length buf.old }
    ensures read { ReadsAt bytes.now at buf.old buf.new result }
{
    if at < bytes.len() as u64 {
        copy_front(&bytes[at as usize..], buf)
    } else {
        0
    }
}

/// Copies the next bytes from `at` on, advances `at` past them, and returns their number.
pub fn read_front(bytes: &[u8], at: &mut usize, buf: &mut [u8]) -> usize
    requires { at.old ≤ length bytes.now }
    ensures fits { result ≤ length buf.old }
    ensures within { at.new ≤ length bytes.now }
    ensures reads { Reads (drop at.old bytes.now) (drop at.new bytes.now) buf.old buf.new result }
{
    let n = copy_front(&bytes[*at..], buf);
    *at += n;
    n
}
