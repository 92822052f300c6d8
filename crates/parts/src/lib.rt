// What the parts of a history have in common: how whole history and record start, and the checksums in all of them.
#![tactic(auto)]

ghost use Rattle.std.specs.Prelude.{◌≡◌, ◌&&◌, ◌+◌, ◌*◌, ◌-◌, ◌≤◌, length};
ghost use Rattle.rules.specs.Bytes.{part, number_bytes, laid, same};
ghost use Rattle.rules.specs.Checksum.{checksum};
ghost use Rattle.rules.specs.Layout.{limit, version_bytes, start_bytes, sum_stands, sums_stand};
ghost use Rattle.rules.specs.Rows.{page_sum_wrong};

use rules::{Entry, Form};

// ---- How a part starts

// Whether signature and version stand at an address.
pub fn starts(history: &[u8], at: usize, form: Form, signature: [u8; 4]) -> bool
    requires { at + 8 ≤ length history.now }
    ensures { result ≡ same (part history.now at 4) signature && same (part history.now (at + 4) 4) (version_bytes form) }
{
    let version = [layout::version(form), 0, 0, 0];
    numbers::has_signature(history, at, signature)
        & numbers::has_signature(history, at + 4, version)
}

// Stores signature, version and a number.
pub fn put_start(history: &mut [u8], at: usize, form: Form, signature: [u8; 4], number: u64)
    requires { at + 16 ≤ length history.old }
    ensures { history.new ≡ laid history.old at (start_bytes form signature number) }
{
    let version = [layout::version(form), 0, 0, 0];
    numbers::put_signature(history, at, signature);
    numbers::put_signature(history, at + 4, version);
    numbers::put::<8>(history, at + 8, number);
}

// ---- Checksums

// Whether the four bytes at sum_at are the checksum of n bytes from an address.
#[tactic(auto, unfolding(rules::specs::Layout::sum_stands))]
pub fn sum_stands(history: &[u8], at: usize, n: usize, sum_at: usize) -> bool
    requires { (at + n ≤ length history.now) × (sum_at + 4 ≤ length history.now) × (length history.now ≤ limit) }
    ensures { result ≡ sum_stands history.now at n sum_at }
{
    let to = at + n;
    numbers::get::<4>(history, sum_at) == checksum::fletcher32(&history[at..to])
}

// The same of n locations or entries of a width from an address on: at an offset in each stands the checksum of its first 16 bytes.
pub fn sums_stand(history: &[u8], at: usize, n: usize, width: usize, offset: usize) -> bool
    requires { (at + n * width ≤ length history.now) × (length history.now ≤ limit) × (16 ≤ width) × (offset + 4 ≤ width) }
    ensures { result ≡ sums_stand width offset history.now at n }
{
    history[at..at + n * width]
        .chunks_exact(width)
        .all(|part| sum_stands(part, 0, 16, offset))
}

// Stores at the end of a part the checksum of all of it. It is made where the part stands, so nothing is held twice.
pub fn put_sum(history: &mut [u8], start: usize, end: usize)
    requires { (start ≤ end) × (end + 4 ≤ length history.old) × (length history.old ≤ limit) }
    ensures { history.new ≡ laid history.old end (number_bytes 4 (checksum (part history.old start (end - start)))) }
{
    let sum = checksum::fletcher32(&history[start..end]);
    numbers::put::<4>(history, end, sum);
}

// Row 9 of one page: whether its bytes have another checksum than its entry says.
#[tactic(auto, unfolding(rules::specs::Rows::page_sum_wrong))]
pub fn page_sum_wrong(history: &[u8], page: u64, e: Entry) -> bool
    requires { (e.physical + page ≤ length history.now) × (length history.now ≤ limit) }
    ensures { result ≡ page_sum_wrong history.now page e }
{
    let from = e.physical as usize;
    let to = from + page as usize;
    e.checksum != checksum::fletcher32(&history[from..to])
}
