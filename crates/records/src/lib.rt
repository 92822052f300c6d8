// A revision's record: its fields read and stored, rows 7 and 8, and what stands of a record that has passed them.
#![tactic(auto)]

ghost use Rattle.std.specs.Prelude.{◌≡◌, true, false, ◌&&◌, List, ℕ, ◌+◌, ◌≤◌, ◌<◌, length, IfOk};
ghost use Rattle.rules.specs.Bytes.{part, laid};
ghost use Rattle.rules.specs.Layout.{
  page_allowed,
  limit,
  entry_limit,
  entries_width,
  user_bytes,
  user_at,
  front_width,
  bare_width,
  front_bytes,
  record_at,
  time_at,
  time_of,
  index_of,
  name_at,
  name_of,
  comment_of,
  no_record,
  text_right,
  record_of,
};
ghost use Rattle.rules.specs.Rows.{entry_right, entries_right, record_lies, record_fields, record_wrong, record_sum_wrong};
ghost use Rattle.rules.specs.Calls.{row, ◌then◌, record_rows};
ghost use Rattle.rules.specs.Refusals.{told};
ghost use Rattle.layout.specs.Paged.{Paged};
ghost use Rattle.records.specs.Front.{descent_bytes};
ghost use Rattle.records.specs.Sound.{Standing, index_in};

use rules::{Entry, Form, Index, Record, Refusal, Setting};
use whole::History;

const SIGNATURE: [u8; 4] = *b"ORRS";

// The limits of name and comment.
const NAME: u64 = 64;

const COMMENT: u64 = 256;

// How far behind a record's start its time stands.
const TIME: usize = 24;

// The same of its user ID.
const USER: usize = 52;

// ---- Fields

// The fields of the record at an address, of the size that its location says.
fn record_at(history: &[u8], form: Form, at: usize, size: u64) -> Record
    requires { at + front_width form ≤ length history.now }
    ensures { result ≡ record_at form history.now at size }
{
    let sizes = at + layout::entry_count_at(form);
    Record {
        address: at as u64,
        size,
        revision: numbers::get::<8>(history, at + 8),
        parent: numbers::get::<8>(history, at + 16),
        logical: numbers::get::<8>(history, at + 40),
        page: numbers::get::<4>(history, at + 48),
        entries: numbers::get::<8>(history, sizes),
        name: numbers::get::<4>(history, sizes + 8),
        comment: numbers::get::<4>(history, sizes + 12),
    }
}

// Stores a user ID behind the page size of the record at an address.
fn put_user(history: &mut [u8], form: Form, at: usize, user: u32)
    requires { at + front_width form ≤ length history.old }
    ensures { history.new ≡ laid history.old (at + 52) (user_bytes form user) }
{
    numbers::put::<4>(history, at + USER, user as u64);
}

// Stores a record's start up to its time: which revision it is, and of which parent.
fn put_descent(history: &mut [u8], form: Form, r: Record, time: &[u8])
    requires { (r.address + front_width form ≤ length history.old) × (length time.now ≡ 16) }
    ensures { history.new ≡ laid history.old r.address (descent_bytes form r time.now) }
{
    let at = r.address as usize;
    parts::put_start(history, at, form, SIGNATURE, r.revision);
    numbers::put::<8>(history, at + 16, r.parent);
    runs::put_run(history, at + TIME, time);
}

// Stores all that stands ahead of a record's entries.
pub fn put_front(history: &mut [u8], form: Form, r: Record, time: &[u8], user: u32)
    requires { (r.address + front_width form ≤ length history.old) × (length time.now ≡ 16) × (length history.old ≤ limit) }
    ensures { history.new ≡ laid history.old r.address (front_bytes form r time.now user) }
{
    let at = r.address as usize;
    let sizes = at + layout::entry_count_at(form);
    put_descent(history, form, r, time);
    numbers::put::<8>(history, at + 40, r.logical);
    numbers::put::<4>(history, at + 48, r.page);
    put_user(history, form, at, user);
    numbers::put::<8>(history, sizes, r.entries);
    numbers::put::<4>(history, sizes + 8, r.name);
    numbers::put::<4>(history, sizes + 12, r.comment);
}

// Where a record's time stands: in every form among the fields ahead of the entries.
pub fn time_at(r: Record) -> usize
    requires { r.address ≤ limit }
    ensures { ((history : List ℕ) → part history result 16 ≡ time_of history r) × ((f : Form) → result + 16 ≤ r.address + front_width f) × (result ≡ time_at r) }
{
    r.address as usize + TIME
}

// The user ID of a record.
pub fn user_of(history: &[u8], form: Form, r: Record) -> u64
    requires { (r.address + front_width form ≤ length history.now) × (length history.now ≤ limit) }
    ensures { result ≡ user_at form history.now r.address }
{
    numbers::get::<4>(history, r.address as usize + USER)
}

// Where a record's name stands, behind its entries.
pub fn name_at(form: Form, r: Record) -> usize
    requires { (r.address ≤ limit) × (r.entries ≤ entry_limit) }
    ensures { result ≡ name_at form r }
{
    let front = layout::front_width(form);
    r.address as usize + front + layout::entries_width(form, r.entries as usize)
}

// ---- Row 7

// Whether the record lies between the empty whole history and the whole history, and its sizes are allowed and add up. Each
// field may be any number, so each sum waits until its parts are known to be small.
fn record_lies(s: Setting, r: Record) -> bool
    requires { (Paged s.form) × (s.address ≤ limit) }
    ensures { result ≡ record_lies s r }
{
    let form = s.form;
    if s.address < r.address {
        return false;
    }
    if s.address - r.address < r.size {
        return false;
    }
    if layout::ENTRIES < r.entries {
        return false;
    }
    if NAME < r.name {
        return false;
    }
    if COMMENT < r.comment {
        return false;
    }
    (layout::empty_end(form) <= r.address)
        & (layout::end_of(form, r.address, r.size) <= s.address)
        & (r.size == layout::record_size(form, r.entries, r.name, r.comment))
}

// The fields ahead of the entries.
fn record_fields(history: History<'_>, k: u64, r: Record) -> bool
    requires { r.address + front_width history.setting.form ≤ length history.bytes.now }
    ensures { result ≡ record_fields history.entry.bytes.now history.entry.setting k r }
{
    let s = history.setting;
    let at = r.address as usize;
    let time = at + TIME;
    let behind = time + 16;
    parts::starts(history.bytes, at, s.form, SIGNATURE)
        & (r.revision == k)
        & (r.parent < k)
        & texts::time_right(&history.bytes[time..behind])
        & ((s.original <= r.logical) & (r.logical <= layout::LIMIT))
        & (r.page == s.form.page)
}

// Whether an entry's addresses are allowed behind those before it, of which the next logical address may be `next`.
fn entry_right(s: Setting, r: Record, next: u64, e: Entry) -> bool
    requires { (Paged s.form) × (page_allowed s.form.page ≡ true) }
    ensures { result ≡ entry_right s r next e }
{
    let form = s.form;
    if r.address < form.page {
        return false;
    }
    (next <= e.logical)
        & numbers::multiple(e.logical, form.page)
        & (e.logical < r.logical)
        & (layout::empty_end(form) <= e.physical)
        & (e.physical <= r.address - form.page)
}

fn entries_right(history: History<'_>, r: Record) -> bool
    requires { (r.address + front_width history.setting.form + entries_width history.setting.form r.entries ≤ length history.bytes.now) × (r.logical ≤ limit) }
    ensures { let s = history.entry.setting in result ≡ entries_right s r 0 (index_of history.entry.bytes.now s.form r) }
{
    let form = history.setting.form;
    let x = Index {
        form,
        at: r.address as usize + layout::front_width(form),
        entries: r.entries as usize,
    };
    let mut next: u64 = 0;
    for k in 0..x.entries {
        let e = index::entry(history.bytes, x, k);
        if !entry_right(history.setting, r, next, e) {
            return false;
        }
        next = e.logical + 1;
    }
    true
}

// Name and comment.
fn texts_right(history: &[u8], form: Form, r: Record) -> bool
    requires { (name_at form r + r.name + r.comment ≤ length history.now) × (length history.now ≤ limit) × (r.entries ≤ entry_limit) }
    ensures { result ≡ text_right (name_of history.now form r) && text_right (comment_of history.now form r) }
{
    let name = name_at(form, r);
    let comment = name + r.name as usize;
    let end = comment + r.comment as usize;
    texts::text_right(&history[name..comment]) & texts::text_right(&history[comment..end])
}

// Row 7.
fn record_wrong(history: History<'_>, k: u64, r: Record) -> bool
    requires { r.address + front_width history.setting.form ≤ length history.bytes.now }
    ensures { result ≡ record_wrong history.entry.bytes.now history.entry.setting k r }
{
    if !record_lies(history.setting, r) {
        return true;
    }
    if !record_fields(history, k, r) {
        return true;
    }
    if !entries_right(history, r) {
        return true;
    }
    !texts_right(history.bytes, history.setting.form, r)
}

// ---- Row 8

fn record_sum_wrong(history: &[u8], form: Form, r: Record) -> bool
    requires { (r.address + r.size ≤ length history.now) × (r.address + bare_width form + entries_width form r.entries ≤ length history.now) × (length history.now ≤ limit) × (bare_width form ≤ r.size) }
    ensures { result ≡ record_sum_wrong history.now form r }
{
    let at = r.address as usize;
    let before = r.size as usize - 4;
    let entries = at + layout::front_width(form);
    let width = layout::entry_width(form);
    !(parts::sum_stands(history, at, before, at + before)
        & parts::sums_stand(
            history,
            entries,
            r.entries as usize,
            width,
            layout::entry_sum_at(form),
        ))
}

// ---- Both rows

// A revision that rows have passed: what the history says of itself, and the revision's record.
#[derive(Clone, Copy)]
pub struct Revision {
    pub setting: Setting,
    pub record: Record,
}

impl Revision {
    // Where its index stands; of a revision with no entries, none.
    pub fn index(self) -> Index
        requires { (self.record.address ≤ limit) × (self.record.entries ≤ entry_limit) }
        ensures { result ≡ index_in self.setting self.record }
    {
        let form = self.setting.form;
        let r = self.record;
        if r.entries == 0 {
            return Index {
                form,
                at: 0,
                entries: 0,
            };
        }
        Index {
            form,
            at: r.address as usize + layout::front_width(form),
            entries: r.entries as usize,
        }
    }
}

// What stands in revision 0's place.
pub fn no_record(s: Setting) -> Record
    ensures { result ≡ no_record s }
{
    Record {
        address: 0,
        size: 0,
        revision: 0,
        parent: 0,
        logical: s.original,
        page: s.form.page,
        entries: 0,
        name: 0,
        comment: 0,
    }
}

// Whether a record of this size can lie there ahead of the whole history, with all of its fields ahead of the entries.
fn apart(s: Setting, at: u64, size: u64) -> bool
    ensures { (result ≡ false → (bare_width s.form ≤ size) × (at + size ≤ s.address)) × (result ≡ true → bare_width s.form ≤ size → at + size ≤ s.address → ⊥) }
{
    if s.address < at {
        return true;
    }
    if s.address - at < size {
        return true;
    }
    size < layout::bare_width(s.form) as u64
}

// Rows 7 and 8 of a record that was read where its location says.
fn judge_read(history: History<'_>, k: u64, r: Record) -> Result<(), Refusal>
    requires { r.address + front_width history.setting.form ≤ length history.bytes.now }
    ensures { let h = history.entry.bytes.now in told result ≡ row 7 (record_wrong h history.entry.setting k r) then row 8 (record_sum_wrong h history.entry.setting.form r) }
{
    if record_wrong(history, k, r) {
        return Err(Refusal::Record);
    }
    if record_sum_wrong(history.bytes, history.setting.form, r) {
        return Err(Refusal::RecordSum);
    }
    Ok(())
}

// Rows 7 and 8 of a revision. A record that does not lie where a record may is refused before its fields are read.
pub fn judge(history: History<'_>, k: u64) -> Result<Record, Refusal>
    requires { k ≤ history.setting.count }
    ensures number { told result ≡ record_rows history.entry.bytes.now history.entry.setting k }
    ensures sound { IfOk result (λ r. Standing history.entry.bytes.now history.entry.setting k r) }
{
    let s = history.setting;
    if k == 0 {
        return Ok(no_record(s));
    }
    let place = history.location_of(k);
    if apart(s, place.address, place.size) {
        return Err(Refusal::Record);
    }
    let record = record_at(history.bytes, s.form, place.address as usize, place.size);
    judge_read(history, k, record)?;
    Ok(record)
}

// The record of a revision that the rows have passed before: it is read and not judged again.
pub fn passed(history: History<'_>, k: u64) -> Record
    requires { (0 < k) × (k ≤ history.setting.count) × (record_rows history.bytes.now history.setting k ≡ 0) }
    ensures { result ≡ record_of history.entry.bytes.now history.entry.setting k }
{
    let place = history.location_of(k);
    record_at(
        history.bytes,
        history.setting.form,
        place.address as usize,
        place.size,
    )
}
