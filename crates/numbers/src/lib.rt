// The numbers and signatures that a history is made of, read from bytes and laid over them.
#![tactic(auto)]

ghost use Rattle.std.specs.Prelude.{◌≡◌, true, ◌+◌, ◌%◌, ◌^◌, ◌≤◌, ◌<◌, eqb, length};
ghost use Rattle.rules.specs.Bytes.{part, number_at, number_bytes, laid, same};
ghost use Rattle.rules.specs.Layout.{page_allowed};

// The number in the N bytes from an address.
pub fn get<const N: usize>(bytes: &[u8], at: usize) -> u64
    requires width { N ≤ 8 }
    requires inside { at + N ≤ length bytes.now }
    ensures { (result ≡ number_at N bytes.now at) × (result < 256 ^ N) }
{
    let mut whole = [0; 8];
    whole[..N].copy_from_slice(&bytes[at..at + N]);
    u64::from_le_bytes(whole)
}

// Lays a number over the N bytes from an address. What does not fit in them is dropped.
pub fn put<const N: usize>(bytes: &mut [u8], at: usize, value: u64)
    requires width { N ≤ 8 }
    requires inside { at + N ≤ length bytes.old }
    ensures { bytes.new ≡ laid bytes.old at (number_bytes N value) }
{
    bytes[at..at + N].copy_from_slice(&value.to_le_bytes()[..N]);
}

// Whether the four bytes from an address are a signature.
pub fn has_signature(bytes: &[u8], at: usize, signature: [u8; 4]) -> bool
    requires { at + 4 ≤ length bytes.now }
    ensures { result ≡ same (part bytes.now at 4) signature }
{
    bytes[at..at + 4].as_array() == Some(&signature)
}

// Lays a signature over the four bytes from an address.
pub fn put_signature(bytes: &mut [u8], at: usize, signature: [u8; 4])
    requires { at + 4 ≤ length bytes.old }
    ensures { bytes.new ≡ laid bytes.old at signature }
{
    bytes[at..at + 4].copy_from_slice(&signature);
}

// Whether a number is a multiple of a page size. Page sizes are powers of two, so a mask tells it without a division.
pub fn multiple(x: u64, page: u64) -> bool
    requires { page_allowed page ≡ true }
    ensures { result ≡ eqb (x % page) 0 }
{
    x & (page - 1) == 0
}
