// Numbers and parts of a list of bytes. A byte past the end reads 0, and a part stops at the end: nothing here has a `requires`.
ghost use Rattle.std.specs.Prelude.{◌≡◌, ◌+◌, ◌*◌, get_or};
ghost use Rattle.model.specs.GrammarFile.{fields};

// Byte i.
pub fn byte(bytes: &[u8], i: usize) -> u8
    ensures { result ≡ get_or bytes.now i 0 }
{
    bytes.get(i).copied().unwrap_or(0)
}

// The number of the 2 bytes at i, little-endian. Where i is past the end, i + 1 may be no `usize`.
pub fn two_bytes(bytes: &[u8], i: usize) -> u16
    ensures { result ≡ get_or bytes.now i 0 + 256 * get_or bytes.now (i + 1) 0 }
{
    if i < bytes.len() {
        u16::from_le_bytes([bytes[i], byte(bytes, i + 1)])
    } else {
        0
    }
}

// The number of the 4 bytes at i, little-endian.
pub fn four_bytes(bytes: &[u8], i: usize) -> u32
    ensures { result ≡ (get_or bytes.now i 0 + 256 * get_or bytes.now (i + 1) 0) + 65536 * (get_or bytes.now (i + 2) 0 + 256 * get_or bytes.now (i + 3) 0) }
{
    if i < bytes.len() {
        u32::from(two_bytes(bytes, i)) + 65536 * u32::from(two_bytes(bytes, i + 2))
    } else {
        0
    }
}

// n bytes from byte i on.
pub fn fields(bytes: &[u8], i: usize, n: usize) -> &[u8]
    ensures { result.now ≡ fields bytes.now i n }
{
    let rest = &bytes[bytes.len().min(i)..];
    &rest[..rest.len().min(n)]
}
