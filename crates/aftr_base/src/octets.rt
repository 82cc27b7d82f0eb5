//! Numbers in network order (RFC 791, Appendix B).
ghost use Rattle.std.specs.Prelude.{◌≡◌, ◌+◌, ◌≤◌, length};
ghost use Rattle.aftr_base.specs.Bytes.{u16_at, u32_at, u64_at, u128_at};

/// The 16-bit number whose two bytes begin at the offset, which counts bytes from 0.
pub fn u16_in(bytes: &[u8], at: usize) -> u16
    requires room { at + 2 ≤ length bytes.now }
    ensures { result ≡ u16_at at bytes.now }
{
    u16::from_be_bytes([bytes[at], bytes[at + 1]])
}

/// The 32-bit number whose four bytes begin at the offset, which counts bytes from 0.
pub fn u32_in(bytes: &[u8], at: usize) -> u32
    requires room { at + 4 ≤ length bytes.now }
    ensures { result ≡ u32_at at bytes.now }
{
    u32::from_be_bytes([bytes[at], bytes[at + 1], bytes[at + 2], bytes[at + 3]])
}

/// The 64-bit number whose eight bytes begin at the offset, which counts bytes from 0.
pub fn u64_in(bytes: &[u8], at: usize) -> u64
    requires room { at + 8 ≤ length bytes.now }
    ensures { result ≡ u64_at at bytes.now }
{
    match <[u8; 8]>::try_from(&bytes[at..at + 8]) {
        Ok(part) => u64::from_be_bytes(part),
        Err(_) => unreachable!(),
    }
}

/// The 128-bit number whose 16 bytes begin at the offset, which counts bytes from 0.
pub fn u128_in(bytes: &[u8], at: usize) -> u128
    requires room { at + 16 ≤ length bytes.now }
    ensures { result ≡ u128_at at bytes.now }
{
    match <[u8; 16]>::try_from(&bytes[at..at + 16]) {
        Ok(part) => u128::from_be_bytes(part),
        Err(_) => unreachable!(),
    }
}
