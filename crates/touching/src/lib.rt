// The pages of a write: the bytes are laid over them, and what is left of a page is copied with them at its first touch.
#![tactic(auto)]

ghost use Rattle.std.specs.Prelude.{◌≡◌, false, ◌+◌, ◌*◌, ◌≤◌, length};
ghost use Rattle.rules.specs.Bytes.{laid, tabulate};
ghost use Rattle.rules.specs.Layout.{limit, entry_limit, touch_limit, entries_width, entries_in};
ghost use Rattle.rules.specs.Orders.{Rising};
ghost use Rattle.rules.specs.View.{has, logicals, pages_shared};
ghost use Rattle.rules.specs.Session.{Held, over_page, written_pages, merged_count};
ghost use Rattle.layout.specs.Paged.{Paged, farthest};
ghost use Rattle.touching.specs.Pages.{Source, Ready, Shares, Within, Covers, AllNew, Counted, missing, page_byte, kept_byte};

use rules::{Index, Setting, State};

// ---- One page

// A write of bytes at an offset, with all that it goes by: the original, and the setting and the index of the session's parent.
#[derive(Clone, Copy)]
pub struct Write<'a> {
    pub original: &'a [u8],
    pub setting: Setting,
    pub index: Index,
    pub offset: usize,
    pub bytes: &'a [u8],
}

// The bytes of a write that fall into a page, behind so many of the page.
#[derive(Clone, Copy)]
struct Run<'a> {
    skip: usize,
    bytes: &'a [u8],
}

// A page that a write shares a byte with: its address, and the size of the session, which shows zeros past it.
#[derive(Clone, Copy)]
struct Page<'a> {
    write: &'a Write<'a>,
    address: usize,
    size: usize,
    ghost shares: { Shares write.now.setting.form.page address write.now.offset (length write.now.bytes.now) },
}

impl<'a> Page<'a> {
    // Lays n bytes of the page, from a place in it on, before its first touch: of the stored page, else of the original.
    fn put_parent(&self, history: &mut [u8], to: usize, from: usize, n: usize)
        requires { (Source history.old self.now.write.now.index to from n) × (self.now.address + from ≤ farthest) }
        ensures { let w = self.now.write.now in history.new ≡ laid history.old to (tabulate n (λ j. page_byte w.original.now history.old (entries_in history.old w.index) self.now.address (from + j))) }
    {
        // A page that is written over as a whole is not looked up.
        if n == 0 {
            return;
        }
        let x = self.write.index;
        match index::find(history, x, self.address as u64) {
            Some(place) => {
                let e = index::entry(history, x, place);
                runs::copy_run(history, e.physical as usize + from, to, n);
            }
            None => view::put_original(history, to, self.write.original, self.address + from, n),
        }
    }

    // The same, with zeros past the session's size.
    fn put_kept(&self, history: &mut [u8], to: usize, from: usize, n: usize)
        requires { (Source history.old self.now.write.now.index to from n) × (self.now.address + from ≤ farthest) }
        ensures { let w = self.now.write.now in history.new ≡ laid history.old to (tabulate n (λ j. kept_byte w.original.now history.old (entries_in history.old w.index) self.now.address self.now.size (from + j))) }
    {
        let keep = n.min(self.size.saturating_sub(self.address + from));
        self.put_parent(&mut *history, to, from, keep);
        runs::put_zeros(history, to + keep, n - keep);
    }

    // The run of the write that falls into it.
    fn run(&self) -> Run<'a>
        ensures { let w = self.now.write.now in Within w.setting.form.page self.now.address w.offset w.bytes.now result.skip result.bytes.now }
    {
        let write = self.write;
        let first = write.offset.max(self.address);
        let last = (write.offset + write.bytes.len()).min(
            self.address + write.setting.form.page as usize,
        );
        Run {
            skip: first - self.address,
            bytes: &write.bytes[first - write.offset..last - write.offset],
        }
    }

    // Lays the write over it where it is the session's own, and stands at `to`.
    fn put_own(&self, history: &mut [u8], to: usize)
        requires { to + self.now.write.now.setting.form.page ≤ length history.old }
        ensures { let w = self.now.write.now in history.new ≡ over_page history.old to w.setting.form.page self.now.address w.offset w.bytes.now }
    {
        let run = self.run();
        runs::put_run(history, to + run.skip, run.bytes);
    }

    // Lays the write over its first copy. Only what the write leaves of the copy is stored, so each byte is stored once.
    fn put_around(&self, history: &mut [u8], to: usize)
        requires { Source history.old self.now.write.now.index to 0 self.now.write.now.setting.form.page }
        ensures { let w = self.now.write.now in history.new ≡ over_page (laid history.old to (tabulate w.setting.form.page (kept_byte w.original.now history.old (entries_in history.old w.index) self.now.address self.now.size))) to w.setting.form.page self.now.address w.offset w.bytes.now }
    {
        let run = self.run();
        let behind = run.skip + run.bytes.len();
        let page = self.write.setting.form.page as usize;
        self.put_kept(&mut *history, to, 0, run.skip);
        runs::put_run(&mut *history, to + run.skip, run.bytes);
        self.put_kept(&mut *history, to + behind, behind, page - behind);
    }

    // How many pages the write covers from this one on.
    fn covered(&self) -> usize
        ensures { let w = self.now.write.now in Covers w.setting.form.page self.now.address w.offset (length w.bytes.now) result }
    {
        let write = self.write;
        if self.address < write.offset {
            return 0;
        }
        let page = write.setting.form.page as usize;
        let rest = write.bytes.len() - (self.address - write.offset);
        // No division for a write of less than a page.
        if rest < page { 0 } else { rest / page }
    }
}

// ---- All of a write's pages

// How many pages from one on are none of a session's pages, counted up to the most asked for. The first of them is known to be none.
fn new_pages(pages: &[u32], first: usize, page: usize, most: usize) -> usize
    requires { (has pages.now first ≡ false) × (1 ≤ most) × (first + most * page ≤ farthest) }
    ensures { (1 ≤ result) × (result ≤ most) × AllNew pages.now page first result }
{
    // A session's first write searches nothing.
    if pages.is_empty() {
        return most;
    }
    (1..most)
        .find(|k| index::own_place(pages, (first + *k * page) as u64).is_some())
        .unwrap_or(most)
}

// Notes pages that follow each other, from an address on.
fn note_pages(pages: &mut [u32], first: usize, page: usize)
    requires { first + length pages.old * page ≤ limit }
    ensures { pages.new ≡ tabulate (length pages.old) (λ i. first + i * page) }
{
    for (k, noted) in pages.iter_mut().enumerate() {
        *noted = (first + k * page) as u32;
    }
}

impl Write<'_> {
    // Lays it over each page that it shares a byte with, in rising order. None of them is one that it itself touched before, so only
    // the pages that the session had ahead of it are searched. New pages that it covers follow each other in the written bytes as in
    // the history, so they are stored as one run.
    pub fn put(&self, history: &mut [u8], st: State) -> State
        requires ready { Ready history.old self.now.setting self.now.index (entries_in history.old self.now.index) st (pages_shared self.now.setting.form.page self.now.offset (length self.now.bytes.now)) }
        requires bytes_bound { self.now.offset + length self.now.bytes.now ≤ limit }
        ensures { ◌≡◌ {A = Held} (record { history = history.new; session = result })
            (written_pages self.now.original.now self.now.setting (entries_in history.old self.now.index) self.now.offset self.now.bytes.now (pages_shared self.now.setting.form.page self.now.offset (length self.now.bytes.now)) (record { history = history.old; session = st })) }
    {
        let page = self.setting.form.page as usize;
        let m = view::pages_in(page, self.offset, self.bytes.len());
        let before = st.n as usize;
        let mut t = st;
        let mut a = self.offset / page * page;
        let mut k: usize = 0;
        // By hand: a turn passes a page, or a whole run of new ones.
        while k < m {
            let here = a;
            let p = Page {
                write: &*self,
                address: here,
                size: t.size as usize,
            };
            if let Some(place) = index::own_place(&t.pages[..before], here as u64) {
                a += page;
                k += 1;
                p.put_own(&mut *history, t.end as usize + place * page);
            } else {
                let n = t.n as usize;
                let to = t.end as usize + n * page;
                let whole = p.covered();
                if whole == 0 {
                    a += page;
                    k += 1;
                    p.put_around(&mut *history, to);
                    t.pages[n] = here as u32;
                    t.n += 1;
                } else {
                    let some = new_pages(&t.pages[..before], here, page, whole);
                    let from = here - self.offset;
                    let end = from + some * page;
                    a += some * page;
                    k += some;
                    runs::put_run(&mut *history, to, &self.bytes[from..end]);
                    note_pages(&mut t.pages[n..n + some], here, page);
                    t.n += some as u64;
                }
            }
        }
        t
    }
}

// How many pages and entries a write would leave.
#[derive(Clone, Copy)]
pub struct Counts {
    pub touched: usize,
    pub merged: usize,
}

// How many of m pages from an address on an index does not have. Pages and entries both rise, so they are passed side by side, the
// pages ahead of an entry all at once.
fn missing_pages(history: &[u8], x: Index, first: usize, m: usize) -> usize
    requires { (x.at + entries_width x.form x.entries ≤ length history.now) × (Rising (logicals (entries_in history.now x))) × (Paged x.form) × (first + m * x.form.page ≤ farthest) }
    ensures { result ≡ missing (entries_in history.now x) x.form.page first m }
{
    let page = x.form.page;
    let end = first as u64 + m as u64 * page;
    let mut place = index::place_from(history, x, first as u64);
    let mut count: usize = 0;
    let mut k: usize = 0;
    // By hand: a turn passes all the pages ahead of an entry, or an entry, or one of both.
    while k < m && place < x.entries {
        let next = index::logical(history, x, place);
        if end <= next {
            break;
        }
        let here = first as u64 + k as u64 * page;
        if here < next {
            let ahead = ((next - here - 1) / page) as usize + 1;
            count += ahead;
            k += ahead;
        } else if next < here {
            place += 1;
        } else {
            place += 1;
            k += 1;
        }
    }
    count + (m - k)
}

// Counts them for a write of `len` bytes at an offset into a session of some pages, whose index would have `before` entries without
// the write. It leaves off once there are over 256 pages.
pub fn count_pages(
    history: &[u8],
    x: Index,
    pages: &[u32],
    before: usize,
    offset: usize,
    len: usize,
) -> Counts
    requires entries_in_bounds { (x.at + entries_width x.form x.entries ≤ length history.now) × (Rising (logicals (entries_in history.now x))) × (length pages.now ≤ touch_limit) }
    requires before_value { (before ≡ merged_count (entries_in history.now x) pages.now) × (before ≤ entry_limit + length pages.now) × (Paged x.form) × (offset + len ≤ limit) }
    ensures { Counted (entries_in history.now x) pages.now (pages_shared x.form.page offset len) result.touched result.merged }
{
    let page = x.form.page as usize;
    let m = view::pages_in(page, offset, len);
    let mut touched = pages.len();
    let mut merged = before;
    let mut a = offset / page * page;
    let mut k: usize = 0;
    // By hand: a turn passes one of the session's own pages, or a whole run of others.
    while k < m && touched <= layout::TOUCHED as usize {
        let here = a;
        if index::own_place(pages, here as u64).is_some() {
            a += page;
            k += 1;
        } else {
            // One page too many is enough to tell.
            let most = (m - k).min(layout::TOUCHED as usize + 1 - touched);
            let some = new_pages(pages, here, page, most);
            touched += some;
            merged += missing_pages(history, x, here, some);
            a += some * page;
            k += some;
        }
    }
    Counts { touched, merged }
}
