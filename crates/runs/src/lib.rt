// Runs of bytes, laid over others.
#![tactic(auto)]

ghost use Rattle.std.specs.Prelude.{◌≡◌, ◌+◌, ◌≤◌, length, replicate};
ghost use Rattle.rules.specs.Bytes.{part, laid};

// Lays a run of bytes over others from an address on.
pub fn put_run(bytes: &mut [u8], at: usize, run: &[u8])
    requires { at + length run.now ≤ length bytes.old }
    ensures { bytes.new ≡ laid bytes.old at run.now }
{
    bytes[at..at + run.len()].copy_from_slice(run);
}

// Copies n bytes to an address above them. The two places do not meet.
// By hand: `copy_within` takes twice as long for a page, since it does not become one call of the C library's move.
pub fn copy_run(bytes: &mut [u8], from: usize, to: usize, n: usize)
    requires { (from + n ≤ to) × (to + n ≤ length bytes.old) }
    ensures { bytes.new ≡ laid bytes.old to (part bytes.old from n) }
{
    let (low, high) = bytes.split_at_mut(to);
    high[..n].copy_from_slice(&low[from..from + n]);
}

// Lays n zeros over the bytes from an address on.
pub fn put_zeros(bytes: &mut [u8], at: usize, n: usize)
    requires { at + n ≤ length bytes.old }
    ensures { bytes.new ≡ laid bytes.old at (replicate n 0) }
{
    bytes[at..at + n].fill(0);
}
