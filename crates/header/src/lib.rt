// The header: rows 1 to 3, what it says of its history, and its 40 bytes.
#![tactic(auto)]

ghost use Rattle.std.specs.Prelude.{◌≡◌, ◌≤◌, ◌<◌, ltb, length};
ghost use Rattle.rules.specs.Bytes.{laid};
ghost use Rattle.rules.specs.Layout.{page_allowed, limit, flags_of, header_width, header_front, header_bytes, form_of, setting_with};
ghost use Rattle.rules.specs.Rows.{length_wrong, header_wrong, header_sum_wrong};
ghost use Rattle.rules.specs.Calls.{header_rows};
ghost use Rattle.rules.specs.Refusals.{told};

use rules::{Form, Refusal, Setting};

const SIGNATURE: [u8; 4] = *b"OHDH";

const LOCK: u8 = 1;

const BRANCHING: u8 = 2;

// The bytes ahead of the header's checksum.
const FRONT: usize = 36;

// ---- Rows 1 to 3

// A power of two from 16 to 4,096: no other number from 16 on divides 4,096.
pub fn page_allowed(page: u64) -> bool
    ensures { result ≡ page_allowed page }
{
    if page < 16 {
        return false;
    }
    4096 % page == 0
}

// Row 1.
pub fn length_wrong(least: usize, length: usize) -> bool
    ensures { result ≡ length_wrong least length }
{
    (length < least) | (layout::LIMIT < length as u64)
}

// No bit is set but the lock and branching.
fn flags_allowed(flags: u8) -> bool
    ensures { result ≡ ltb flags 4 }
{
    flags & 252 == 0
}

// The form of a history.
fn form_of(history: &[u8]) -> Form
    requires { header_width ≤ length history.now }
    ensures { result ≡ form_of history.now }
{
    Form {
        page: numbers::get::<4>(history, 8),
    }
}

// Row 2.
fn header_wrong(history: &[u8]) -> bool
    requires { header_width ≤ length history.now }
    ensures { result ≡ header_wrong history.now }
{
    let form = form_of(history);
    !(numbers::has_signature(history, 0, SIGNATURE)
        & (history[4] == layout::version(form))
        & flags_allowed(history[5])
        & (history[6] == 0)
        & (history[7] == 0)
        & page_allowed(form.page)
        & (numbers::get::<8>(history, 12) <= layout::LIMIT))
}

// Row 3.
fn header_sum_wrong(history: &[u8]) -> bool
    requires { (header_width ≤ length history.now) × (length history.now ≤ limit) }
    ensures { result ≡ header_sum_wrong history.now }
{
    !parts::sum_stands(history, 0, FRONT, FRONT)
}

// Rows 1, 2 and 3: the first of them that holds refuses.
pub fn header_rows(history: &[u8]) -> Result<(), Refusal>
    ensures { told result ≡ header_rows history.now }
{
    if length_wrong(layout::HEADER, history.len()) {
        return Err(Refusal::Length);
    }
    if header_wrong(history) {
        return Err(Refusal::Header);
    }
    if header_sum_wrong(history) {
        return Err(Refusal::HeaderSum);
    }
    Ok(())
}

// ---- What the header says

// The header's fields, with a count that does not stand in it.
pub fn setting_with(history: &[u8], count: u64) -> Setting
    requires { header_width ≤ length history.now }
    ensures { result ≡ setting_with history.now count }
{
    let form = form_of(history);
    Setting {
        form,
        original: numbers::get::<8>(history, 12),
        address: layout::get_address(form, history, 20),
        size: numbers::get::<8>(history, 28),
        count,
        lock: history[5] & LOCK == LOCK,
        branching: history[5] & BRANCHING == BRANCHING,
    }
}

// ---- The header's bytes

fn flags_of(s: Setting) -> u64
    ensures { (result ≡ flags_of s) × (result < 4) }
{
    let lock = u8::from(s.lock) * LOCK;
    let branching = u8::from(s.branching) * BRANCHING;
    u64::from(lock | branching)
}

// The bytes ahead of the header's checksum.
fn put_front(header: &mut [u8], s: Setting)
    requires { header_width ≤ length header.old }
    ensures { header.new ≡ laid header.old 0 (header_front s) }
{
    let form = s.form;
    let flags = flags_of(s);
    let version = u64::from(layout::version(form));
    numbers::put_signature(header, 0, SIGNATURE);
    numbers::put::<4>(header, 4, version + flags * 256);
    numbers::put::<4>(header, 8, form.page);
    numbers::put::<8>(header, 12, s.original);
    layout::put_address(form, header, 20, s.address);
    numbers::put::<8>(header, 28, s.size);
}

// All of the header, in a buffer of that length.
fn fill_header(header: &mut [u8], s: Setting)
    requires { length header.old ≡ header_width }
    ensures { header.new ≡ header_bytes s }
{
    put_front(header, s);
    parts::put_sum(header, 0, FRONT);
}

// Stores the 40 header bytes, all at once.
pub fn put_header(history: &mut [u8], s: Setting)
    requires { header_width ≤ length history.old }
    ensures { history.new ≡ laid history.old 0 (header_bytes s) }
{
    let mut header = [0u8; 40];
    fill_header(&mut header, s);
    runs::put_run(history, 0, &header);
}
