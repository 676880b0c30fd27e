// Bytes joined to one number, the first the lowest. The back end loads them at once.
ghost use Rattle.std.specs.Prelude.{◌≡◌, ◌+◌, ◌≤◌, ◌<◌, length};
ghost use Rattle.spellings.specs.Eights.{four_at, eight_at};

// Four bytes from an index on.
pub fn four(s: &[u8], i: usize) -> u64
    requires { i + 4 ≤ length s.now }
    ensures { (result ≡ four_at s.now i) × (result < 4294967296) }
{
    u32::from_le_bytes([s[i], s[i + 1], s[i + 2], s[i + 3]]) as u64
}

// Eight bytes.
pub fn eight(s: &[u8], i: usize) -> u64
    requires { i + 8 ≤ length s.now }
    ensures { result ≡ eight_at s.now i }
{
    u64::from_le_bytes([
        s[i],
        s[i + 1],
        s[i + 2],
        s[i + 3],
        s[i + 4],
        s[i + 5],
        s[i + 6],
        s[i + 7],
    ])
}
