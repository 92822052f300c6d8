// The numbers of the layout, each in one place: ends, widths and places that go by the form, and how an address is stored.
#![tactic(auto)]

ghost use Rattle.std.specs.Prelude.{◌≡◌, ◌+◌, ◌^◌, ◌≤◌, ◌<◌, length};
ghost use Rattle.rules.specs.Bytes.{laid};
ghost use Rattle.rules.specs.Layout.{
  entry_limit,
  revision_limit,
  end_of,
  version,
  address_at,
  address_bytes,
  entry_sum_at,
  entry_width,
  entries_width,
  entry_count_at,
  front_width,
  bare_width,
  whole_size,
  header_end,
  empty_end,
  record_size,
};
ghost use Rattle.rules.specs.Session.{created_form};
ghost use Rattle.layout.specs.Paged.{Paged, farthest};

use rules::Form;

// ---- Sizes allowed

// Of the original, a logical size and a history buffer.
pub const LIMIT: u64 = 16777216;

pub const REVISIONS: u64 = 1024;

pub const ENTRIES: u64 = 4096;

pub const TOUCHED: u64 = 256;

// ---- Widths that no form changes

// The header, and a location.
pub const HEADER: usize = 40;

pub const LOCATION: usize = 20;

// ---- Ends, of a form whose page size is allowed. That is a clause and no invariant of `Form`, since a form is read before it is judged.

// Where a part ends.
pub fn end_of(form: Form, at: u64, size: u64) -> u64
    requires { (Paged form) × (at ≤ farthest) × (size ≤ farthest) }
    ensures { result ≡ end_of form at size }
{
    at + size
}

// The least address of a whole history.
pub fn header_end(form: Form) -> u64
    requires { Paged form }
    ensures { result ≡ header_end form }
{
    end_of(form, 0, HEADER as u64)
}

// The least address of a record or a page.
pub fn empty_end(form: Form) -> u64
    requires { Paged form }
    ensures { result ≡ empty_end form }
{
    let at = header_end(form);
    end_of(form, at, whole_size(0))
}

// The same before the page size is judged, as creation asks for it.
pub fn created_length(page: u64) -> usize
    ensures { result ≡ empty_end (created_form page) }
{
    60
}

// ---- Widths and places

pub fn version(form: Form) -> u8
    ensures { result ≡ version form }
{
    1
}

// The size of a whole history.
pub fn whole_size(count: u64) -> u64
    requires { count ≤ revision_limit }
    ensures { result ≡ whole_size count }
{
    20 + 20 * count
}

// How far behind an entry's start its own checksum stands.
pub fn entry_sum_at(form: Form) -> usize
    ensures { result ≡ entry_sum_at form }
{
    20
}

pub fn entry_width(form: Form) -> usize
    ensures { result ≡ entry_width form }
{
    entry_sum_at(form) + 4
}

// The bytes of n entries: so far behind the start of the index stands entry n.
pub fn entries_width(form: Form, n: usize) -> usize
    requires { entries_width form n < 2 ^ 64 }
    ensures { result ≡ entries_width form n }
{
    n * entry_width(form)
}

// How far behind a record's start its entry count stands.
pub fn entry_count_at(form: Form) -> usize
    ensures { result ≡ entry_count_at form }
{
    56
}

// The bytes of a record ahead of its entries, and of a record without its entries, name and comment.
pub fn front_width(form: Form) -> usize
    ensures { result ≡ front_width form }
{
    entry_count_at(form) + 16
}

pub fn bare_width(form: Form) -> usize
    ensures { result ≡ bare_width form }
{
    front_width(form) + 4
}

// The size of a record with these sizes.
pub fn record_size(form: Form, entries: u64, name: u64, comment: u64) -> u64
    requires { (entries ≤ entry_limit) × (name ≤ farthest) × (comment ≤ farthest) }
    ensures { result ≡ record_size form entries name comment }
{
    let width = entries_width(form, entries as usize);
    (bare_width(form) + width) as u64 + name + comment
}

// ---- Stored addresses

// The address that stands in the eight bytes at another.
pub fn get_address(form: Form, bytes: &[u8], at: usize) -> u64
    requires { at + 8 ≤ length bytes.now }
    ensures { result ≡ address_at form bytes.now at }
{
    numbers::get::<8>(bytes, at)
}

// Lays an address over the eight bytes at another.
pub fn put_address(form: Form, bytes: &mut [u8], at: usize, address: u64)
    requires { at + 8 ≤ length bytes.old }
    ensures { bytes.new ≡ laid bytes.old at (address_bytes form address) }
{
    numbers::put::<8>(bytes, at, address);
}
