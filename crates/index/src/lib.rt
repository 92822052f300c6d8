// The index of a revision, where it stands in the history: its entries read and stored, and the places of pages in it and among a
// session's pages.
#![tactic(auto)]

ghost use Rattle.std.specs.Prelude.{◌≡◌, true, ◌+◌, ◌≤◌, ◌*◌, ◌^◌, ◌<◌, ◌==◌, length, get_or, IfSome, is_some};
ghost use Rattle.std.specs.List.{list_any};
ghost use Rattle.rules.specs.Bytes.{laid};
ghost use Rattle.rules.specs.Layout.{
  page_sum_at,
  page_sum_bytes,
  entry_sum_at,
  entry_width,
  entries_width,
  entry_bytes,
  entry_at,
  entries_in,
};
ghost use Rattle.rules.specs.Orders.{Rising};
ghost use Rattle.rules.specs.View.{place_of, has, logicals, has_page};
ghost use Rattle.index.specs.Places.{Searchable, Parted, Without};

use rules::{Entry, Form, Index};

// ---- Entries

// The page checksum of the entry at an address.
#[tactic(auto, unfolding(rules::specs::Layout::page_sum_at, rules::specs::Layout::entry_sum_at))]
fn page_sum_at(form: Form, history: &[u8], at: usize) -> u64
    requires { at + entry_sum_at form ≤ length history.now }
    ensures { result ≡ page_sum_at form history.now at }
{
    numbers::get::<4>(history, at + 16)
}

// Stores the page checksum of the entry at an address.
#[tactic(auto, unfolding(rules::specs::Layout::page_sum_bytes, rules::specs::Layout::entry_sum_at))]
fn put_page_sum(form: Form, history: &mut [u8], at: usize, sum: u64)
    requires { at + entry_sum_at form ≤ length history.old }
    ensures { history.new ≡ laid history.old (at + 16) (page_sum_bytes form sum) }
{
    numbers::put::<4>(history, at + 16, sum);
}

// The entry at an address.
#[tactic(auto, using(crate::proofs::Stores::placed))]
pub fn entry_at(form: Form, history: &[u8], at: usize) -> Entry
    requires { at + entry_sum_at form ≤ length history.now }
    ensures { result ≡ entry_at form history.now at }
{
    let logical = numbers::get::<8>(history, at);
    let physical = layout::get_address(form, history, at + 8);
    let checksum = page_sum_at(form, history, at);
    Entry {
        logical,
        physical,
        checksum,
    }
}

// Stores an entry at an address. The checksum of its first sixteen bytes is made where they stand.
#[tactic(auto, using(crate::proofs::Stores::placed))]
pub fn put_entry(form: Form, history: &mut [u8], to: usize, entry: Entry)
    requires { to + entry_width form ≤ length history.old }
    ensures { history.new ≡ laid history.old to (entry_bytes form entry) }
{
    numbers::put::<8>(history, to, entry.logical);
    layout::put_address(form, history, to + 8, entry.physical);
    let sum = checksum::fletcher32_sixteen(history, to);
    put_page_sum(form, history, to, entry.checksum);
    numbers::put::<4>(history, to + layout::entry_sum_at(form), sum);
}

// The address of the entry at a place of an index.
fn address(x: Index, place: usize) -> usize
    requires { (x.at + entries_width x.form x.entries < 2 ^ 64) × (place < x.entries) }
    ensures value { result ≡ x.at + entries_width x.form place }
    ensures within { result + entry_width x.form ≤ x.at + entries_width x.form x.entries }
{
    x.at + layout::entries_width(x.form, place)
}

// The entry there.
pub fn entry(history: &[u8], x: Index, place: usize) -> Entry
    requires { (x.at + entries_width x.form x.entries ≤ length history.now) × (place < x.entries) }
    ensures { result ≡ entry_at x.form history.now (x.at + entries_width x.form place) }
{
    entry_at(x.form, history, address(x, place))
}

// Its logical address alone.
#[tactic(auto, using(rules::proofs::Entries::logical_entries, crate::proofs::Stores::placed))]
pub fn logical(history: &[u8], x: Index, place: usize) -> u64
    requires { (x.at + entries_width x.form x.entries ≤ length history.now) × (place < x.entries) }
    ensures { result ≡ get_or (logicals (entries_in history.now x)) place 0 }
{
    numbers::get::<8>(history, address(x, place))
}

// ---- Places in an index, whose addresses rise

// The place of the first entry whose address is not below another. It is searched by halves.
// By hand: the library's `partition_point` is of a slice, and the entries stand as bytes.
pub fn place_from(history: &[u8], x: Index, address: u64) -> usize
    requires { Searchable history.now x }
    ensures { Parted (logicals (entries_in history.now x)) address result result }
{
    let mut low = 0;
    let mut high = x.entries;
    while low < high {
        let middle = low + (high - low) / 2;
        if logical(history, x, middle) < address {
            low = middle + 1;
        } else {
            high = middle;
        }
    }
    low
}

// The place of a page, where it has an entry.
pub fn find(history: &[u8], x: Index, page: u64) -> Option<usize>
    requires { Searchable history.now x }
    ensures place { IfSome result (λ k. (k ≡ place_of page (logicals (entries_in history.now x))) × (k < x.entries)) }
    ensures found { is_some result ≡ has_page (entries_in history.now x) page }
{
    let place = place_from(history, x, page);
    if place < x.entries && logical(history, x, place) == page {
        Some(place)
    } else {
        None
    }
}

// ---- Places among a session's pages, which stand in the order of first touch

// Whether a page is one of these. It is compared with each of them and goes by no branch, so that the machine compares several of a
// block at a time.
fn any_is(pages: &[u32], page: u32) -> bool
    ensures { result ≡ list_any (λ own. own == page) pages.now }
{
    pages.iter().fold(false, |any, own| any | (*own == page))
}

// How many blocks of sixteen pages are passed, ahead of the first that has a page.
fn passed_blocks(pages: &[u32], page: u32) -> usize
    ensures { (16 * result ≤ length pages.now) × Without pages.now (16 * result) page }
{
    pages
        .chunks_exact(16)
        .take_while(|block| !any_is(block, page))
        .count()
}

// The place of a page among a session's, where it is one of them. The pages are numbers of 32 bits and are compared as such.
pub fn own_place(pages: &[u32], page: u64) -> Option<usize>
    ensures place { IfSome result (λ k. (k ≡ place_of page pages.now) × (k < length pages.now)) }
    ensures found { is_some result ≡ has pages.now page }
{
    let Ok(sought) = u32::try_from(page) else {
        return None;
    };
    let from = 16 * passed_blocks(pages, sought);
    let inside = pages[from..].iter().position(|own| *own == sought)?;
    Some(from + inside)
}

// Whether pages rise, as those of one write do. Only the answer yes tells its caller anything.
pub fn rise(pages: &[u32]) -> bool
    ensures { result ≡ true → Rising pages.now }
{
    pages.is_sorted_by(|before, after| *before < *after)
}
