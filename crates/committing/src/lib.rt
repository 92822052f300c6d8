// A commit: its rows, then the record, the new whole history and, last, the header.
#![tactic(auto)]

ghost use Rattle.std.specs.Prelude.{◌≡◌, ◌++◌, ◌+◌, ◌≤◌, ◌<◌, length, IfOk};
ghost use Rattle.rules.specs.Bytes.{laid};
ghost use Rattle.rules.specs.Layout.{
  limit,
  entry_limit,
  revision_limit,
  header_width,
  committed_end,
  header_bytes,
  whole_bytes,
  index_bytes,
  front_bytes,
  index_of,
  name_at,
};
ghost use Rattle.rules.specs.Session.{merged_index, record_stored, setting_stored, locations_stored};
ghost use Rattle.rules.specs.Rows.{texts_wrong, no_room};
ghost use Rattle.rules.specs.Calls.{Outcome, commit_rows, commit};
ghost use Rattle.rules.specs.Refusals.{told};
ghost use Rattle.layout.specs.Paged.{Paged, farthest};
ghost use Rattle.whole.specs.Places.{Extensible};
ghost use Rattle.committing.specs.Stored.{Small, Standing, Committable, texts_stored};

use records::Revision;
use rules::{Form, Record, Refusal, Setting, State};

// ---- Rows

// Row 16.
fn texts_wrong(time: &[u8], name: &[u8], comment: &[u8]) -> bool
    ensures { result ≡ texts_wrong time.now name.now comment.now }
{
    !(texts::time_right(time) & texts::name_right(name) & texts::comment_right(comment))
}

// The record that a commit stores behind the session's pages.
fn record_stored(s: Setting, st: State, entries: u64, name: u64, comment: u64) -> Record
    requires { Small s st entries name comment }
    ensures { result ≡ record_stored s st entries name comment }
{
    let form = s.form;
    Record {
        address: st.end + st.n * form.page,
        size: layout::record_size(form, entries, name, comment),
        revision: s.count + 1,
        parent: st.parent,
        logical: st.size,
        page: form.page,
        entries,
        name,
        comment,
    }
}

// What the history says of itself once the record stands and the new whole history stands behind it: one revision more, and no lock.
fn setting_stored(s: Setting, r: Record) -> Setting
    requires { (Paged s.form) × (r.address ≤ farthest) × (r.size ≤ farthest) × (s.count < revision_limit) }
    ensures { result ≡ setting_stored s r }
{
    let form = s.form;
    Setting {
        form,
        original: s.original,
        address: layout::end_of(form, r.address, r.size),
        size: layout::whole_size(s.count + 1),
        count: s.count + 1,
        lock: false,
        branching: s.branching,
    }
}

// Row 15.
fn no_room(room: usize, s: Setting, r: Record) -> bool
    requires { (Paged s.form) × (r.address ≤ limit) × (r.size + 4096 ≤ limit) × (s.count < revision_limit) }
    ensures { result ≡ no_room room (committed_end (setting_stored s r)) }
{
    let form = s.form;
    let t = setting_stored(s, r);
    (room as u64) < layout::end_of(form, t.address, t.size)
}

// A commit that rows have passed: the session's parent, and the record to be stored.
#[derive(Clone, Copy)]
struct Prepared {
    parent: Revision,
    record: Record,
}

// Commit 1, 2, 3, 5, 13, 7, 8, 14, 16, 15. Row 13 has seen to it that no more than 256 pages are touched.
fn prepare(
    st: &State,
    history: &[u8],
    time: &[u8],
    name: &[u8],
    comment: &[u8],
) -> Result<Prepared, Refusal>
    ensures number { told result ≡ commit_rows st.now history.now time.now name.now comment.now }
    ensures standing { IfOk result (λ p. Committable history.now p.parent.setting st.now p.parent.record p.record time.now name.now comment.now) }
{
    let parent = sessions::judge_alone(st, history)?;
    let s = parent.setting;
    let x = parent.index();
    let entries = merge::merged_count(history, x, &st.pages[..st.n as usize]) as u64;
    if layout::ENTRIES < entries {
        return Err(Refusal::TooMany);
    }
    if texts_wrong(time, name, comment) {
        return Err(Refusal::Texts);
    }
    let record = record_stored(s, *st, entries, name.len() as u64, comment.len() as u64);
    if no_room(history.len(), s, record) {
        return Err(Refusal::NoRoom);
    }
    Ok(Prepared { parent, record })
}

// ---- Stores, each behind the one before it

// The record's front, and the merged index, which is put together where it stands from what lies ahead of the record.
fn put_indexed(history: &mut [u8], st: &State, p: Prepared, time: &[u8], user: u32)
    requires { (Standing history.old p.parent.setting st.now p.parent.record p.record) × (length time.now ≡ 16) }
    ensures { let s = p.parent.setting in
        history.new ≡ laid history.old p.record.address
        (front_bytes s.form p.record time.now user
        ++ index_bytes s.form (merged_index history.old s st.now (index_of history.old s.form p.parent.record))) }
{
    let form = p.parent.setting.form;
    let r = p.record;
    let x = p.parent.index();
    let to = r.address as usize + layout::front_width(form);
    records::put_front(history, form, r, time, user);
    merge::put_merged(history, x, &st.pages[..st.n as usize], st.end as usize, to);
}

// Name and comment behind the entries, and the checksum of the whole record behind them.
fn put_texts(history: &mut [u8], form: Form, r: Record, name: &[u8], comment: &[u8])
    requires { (name_at form r + length name.now + length comment.now + 4 ≤ length history.old) × (length history.old ≤ limit) × (r.entries ≤ entry_limit) }
    ensures { history.new ≡ texts_stored form r name.now comment.now history.old }
{
    let at = records::name_at(form, r);
    let behind = at + name.len();
    let end = behind + comment.len();
    runs::put_run(history, at, name);
    runs::put_run(history, behind, comment);
    parts::put_sum(history, r.address as usize, end);
}

// The new whole history, and then the header: until it stands, the history is what it was.
fn put_end(history: &mut [u8], s: Setting, r: Record)
    requires { (Extensible history.old s r) × (r.address ≤ farthest) × (header_width ≤ length history.old) }
    ensures { history.new ≡ laid (laid history.old (setting_stored s r).address
        (whole_bytes s.form (s.count + 1) (locations_stored history.old s r))) 0 (header_bytes (setting_stored s r)) }
{
    whole::put_whole(history, s, r);
    header::put_header(history, setting_stored(s, r));
}

// ---- The call

// Commits a session, which ends with it.
pub fn commit(
    st: &mut State,
    history: &mut [u8],
    time: &[u8],
    user: u32,
    name: &[u8],
    comment: &[u8],
) -> Result<(), Refusal>
    ensures { ◌≡◌ {A = Outcome} (record { number = told result; session = st.new; bytes = history.new })
        (commit st.old history.old time.now user name.now comment.now) }
{
    let p = prepare(&*st, history, time, name, comment)?;
    let s = p.parent.setting;
    let r = p.record;
    put_indexed(history, &*st, p, time, user);
    put_texts(history, s.form, r, name, comment);
    put_end(history, s, r);
    *st = sessions::ended();
    Ok(())
}
