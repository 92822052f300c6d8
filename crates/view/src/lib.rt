// The bytes that a revision or a session shows, and whether the stored pages among them are whole. A revision is read as a session
// that has touched no page.
#![tactic(auto)]

ghost use Rattle.std.specs.Prelude.{◌≡◌, ◌+◌, ◌*◌, ◌%◌, ◌^◌, ◌≤◌, ◌<◌, length, get_or};
ghost use Rattle.rules.specs.Bytes.{part, laid, tabulate};
ghost use Rattle.rules.specs.Layout.{limit, entries_width, entries_in};
ghost use Rattle.rules.specs.View.{logicals, revision_bytes, pages_from, pages_in, pages_shared};
ghost use Rattle.rules.specs.Rows.{page_wrong};
ghost use Rattle.layout.specs.Paged.{farthest};
ghost use Rattle.view.specs.Seen.{Seen, unowned_wrong, unowned_pages_wrong, original_byte, shown};
ghost use Rattle.view.specs.Places.{NextStored, own_over};

use rules::Index;

// Where things stand: the index of a revision, and behind an end the pages of a session's own, by their addresses.
#[derive(Clone, Copy)]
pub struct View<'a> {
    pub index: Index,
    pub end: usize,
    pub own: &'a [u32],
}

// ---- Whether pages are whole

// Whether the index has a page, and the page's checksum is wrong.
pub fn page_wrong(history: &[u8], v: View, address: u64) -> bool
    requires { Seen history.now v }
    ensures { result ≡ page_wrong history.now v.entry.index.form.page (entries_in history.now v.entry.index) address }
{
    let x = v.index;
    let Some(place) = index::find(history, x, address) else {
        return false;
    };
    let e = index::entry(history, x, place);
    parts::page_sum_wrong(history, x.form.page, e)
}

// The same of the page of the entry at a place, if it is none of the session's own: neither its own pages nor what they replace
// counts. A small page is summed sooner than it is looked for among many, and few sums are wrong.
fn unowned_wrong(history: &[u8], v: View, place: usize) -> bool
    requires { (Seen history.now v) × (place < v.index.entries) }
    ensures { result ≡ unowned_wrong history.now v.entry (get_or (logicals (entries_in history.now v.entry.index)) place 0) }
{
    let x = v.index;
    let page = x.form.page;
    let e = index::entry(history, x, place);
    if page < v.own.len() as u64 && !parts::page_sum_wrong(history, page, e) {
        return false;
    }
    index::own_place(v.own, e.logical).is_none() && parts::page_sum_wrong(history, page, e)
}

// The same of any of m pages from an address on. The entries of these pages stand together, so no page is searched for.
fn pages_wrong(history: &[u8], v: View, first: u64, m: usize) -> bool
    requires { (Seen history.now v) × (first + m * v.index.form.page ≤ farthest) × (first % v.index.form.page ≡ 0) }
    ensures { result ≡ unowned_pages_wrong history.now v.entry (pages_from v.entry.index.form.page first m) }
{
    let x = v.index;
    let end = first + m as u64 * x.form.page;
    let start = index::place_from(history, x, first);
    let last = index::place_from(history, x, end);
    for place in start..last {
        if unowned_wrong(history, v, place) {
            return true;
        }
    }
    false
}

// How many pages n bytes from an offset share a byte with.
pub fn pages_in(page: usize, at: usize, n: usize) -> usize
    requires { (16 ≤ page) × (at + n ≤ limit) }
    ensures { result ≡ pages_in page at n }
{
    if n == 0 {
        return 0;
    }
    (at + (n - 1)) / page - at / page + 1
}

// Whether any indexed page that n bytes from an offset share a byte with is damaged, but for the session's own.
pub fn range_wrong(history: &[u8], v: View, at: usize, n: usize) -> bool
    requires { (Seen history.now v) × (at + n ≤ limit) }
    ensures { result ≡ unowned_pages_wrong history.now v.entry (pages_shared v.entry.index.form.page at n) }
{
    let page = v.index.form.page as usize;
    let m = pages_in(page, at, n);
    pages_wrong(history, v, (at / page * page) as u64, m)
}

// ---- The bytes

// Lays n bytes of the original from an offset on over a buffer, with zeros past the original's end.
pub fn put_original(out: &mut [u8], to: usize, original: &[u8], from: usize, n: usize)
    requires { to + n ≤ length out.old }
    ensures { out.new ≡ laid out.old to (tabulate n (original_byte original.now from)) }
{
    let start = from.min(original.len());
    let there = n.min(original.len() - start);
    runs::put_run(&mut *out, to, &original[start..start + there]);
    runs::put_zeros(out, to + there, n - there);
}

// Lays n bytes of the history over a buffer.
fn put_stored(out: &mut [u8], to: usize, history: &[u8], from: usize, n: usize)
    requires { (to + n ≤ length out.old) × (from + n ≤ length history.now) }
    ensures { out.new ≡ laid out.old to (part history.now from n) }
{
    runs::put_run(out, to, &history[from..from + n]);
}

// The address of the stored page at a place of the index; past the last the end, where nothing is looked for any more.
fn next_stored(history: &[u8], x: Index, place: usize, end: usize) -> usize
    requires { x.at + entries_width x.form x.entries ≤ length history.now }
    ensures { NextStored history.now x place end result }
{
    if place < x.entries {
        index::logical(history, x, place) as usize
    } else {
        end
    }
}

// Fills a buffer with the revision's bytes from an offset on. The index is walked beside the buffer: what lies ahead of the next
// stored page is one run of the original.
fn put_revision(out: &mut [u8], original: &[u8], history: &[u8], v: View, from: usize)
    requires { (Seen history.now v) × (from + length out.old ≤ limit) }
    ensures { out.new ≡ revision_bytes original.now history.now v.entry.index.form.page (entries_in history.now v.entry.index) from (length out.old) }
{
    let x = v.index;
    let page = x.form.page as usize;
    let n = out.len();
    let mut place = index::place_from(history, x, (from / page * page) as u64);
    let mut done: usize = 0;
    // By hand: each step is as long as the run, or what is left of the page, that it lays.
    while done < n {
        let at = from + done;
        let next = next_stored(history, x, place, from + n);
        if next <= at {
            let e = index::entry(history, x, place);
            let inside = at - next;
            let some = (page - inside).min(n - done);
            put_stored(&mut *out, done, history, e.physical as usize + inside, some);
            done += some;
            place += 1;
        } else {
            let some = (next - at).min(n - done);
            put_original(&mut *out, done, original, at, some);
            done += some;
        }
    }
}

// Lays a page of the session's own over a buffer that has the bytes from an offset on, as far as the two meet. A page's address is
// a multiple of the page size; what stands elsewhere is not shown. The address is a number of 32 bits, so that it and a page stay
// below 2^33.
fn put_own(out: &mut [u8], history: &[u8], page: usize, address: usize, stored: usize, from: usize)
    requires { (0 < page) × (stored + page ≤ length history.now) × (address + page ≤ 2 ^ 33) × (from + length out.old ≤ limit) }
    ensures { out.new ≡ tabulate (length out.old) (own_over out.old history.now page address stored from) }
{
    let start = address.max(from);
    let end = (address + page).min(from + out.len());
    if end <= start {
        return;
    }
    if address % page != 0 {
        return;
    }
    put_stored(
        out,
        start - from,
        history,
        stored + (start - address),
        end - start,
    );
}

// Fills a buffer with the bytes that the view shows from an offset on: the revision's, and over them the session's own pages. The
// first of them comes last, since it is the one that a search would find.
pub fn put_view(out: &mut [u8], original: &[u8], history: &[u8], v: View, from: usize)
    requires { (Seen history.now v) × (from + length out.old ≤ limit) }
    ensures { out.new ≡ tabulate (length out.old) (shown original.now history.now v.entry from) }
{
    put_revision(&mut *out, original, history, v, from);
    let page = v.index.form.page as usize;
    for mine in (0..v.own.len()).rev() {
        let address = v.own[mine] as usize;
        put_own(&mut *out, history, page, address, v.end + mine * page, from);
    }
}
