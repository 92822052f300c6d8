// A write: its rows, then its pages and the session's new size.
#![tactic(auto)]

ghost use Rattle.std.specs.Prelude.{◌≡◌, ◌+◌, ◌≤◌, length, OnOk};
ghost use Rattle.rules.specs.Layout.{limit, index_of};
ghost use Rattle.rules.specs.View.{own_pages, own_address, pages_shared};
ghost use Rattle.rules.specs.Session.{Held, touching, written};
ghost use Rattle.rules.specs.Rows.{write_too_far, too_many, no_room};
ghost use Rattle.rules.specs.Calls.{Outcome, row, ◌then◌, write};
ghost use Rattle.rules.specs.Refusals.{told};
ghost use Rattle.sessions.specs.Sound.{SoundSession};
ghost use Rattle.writing.specs.Writable.{Writable, rows_behind};

use records::Revision;
use rules::{Refusal, State};
use touching::Write;
use view::View;

// Row 19. The offset may be as large as the limit, so no sum is made.
fn write_too_far(at: u64, n: u64) -> bool
    requires { at ≤ limit }
    ensures { result ≡ write_too_far at n }
{
    layout::LIMIT - at < n
}

// Rows 14 and 15, judged on the pages and entries that would result.
fn room_rows(
    st: &State,
    history: &[u8],
    parent: Revision,
    at: usize,
    n: usize,
) -> Result<(), Refusal>
    requires { (SoundSession history.now parent.setting st.now parent.record) × (at + n ≤ limit) }
    ensures { let s = parent.setting in let would = touching (own_pages st.now) (pages_shared s.form.page at n) in
        told result ≡ row 14 (too_many (index_of history.now s.form parent.record) would)
        then row 15 (no_room (length history.now) (own_address s st.now (length would))) }
{
    let x = parent.index();
    let own = &st.pages[..st.n as usize];
    let before = merge::merged_count(history, x, own);
    let would = touching::count_pages(history, x, own, before, at, n);
    if layout::TOUCHED < would.touched as u64 {
        return Err(Refusal::TooMany);
    }
    if layout::ENTRIES < would.merged as u64 {
        return Err(Refusal::TooMany);
    }
    if (history.len() as u64) < st.end + would.touched as u64 * parent.setting.form.page {
        return Err(Refusal::NoRoom);
    }
    Ok(())
}

// Rows 10, 19, 14, 15, 9, behind those of the session.
fn write_rows(
    st: &State,
    history: &[u8],
    parent: Revision,
    at: u64,
    n: usize,
) -> Result<(), Refusal>
    requires { SoundSession history.now parent.setting st.now parent.record }
    ensures number { told result ≡ rows_behind st.now history.now parent.setting parent.record at n }
    ensures fits { OnOk result (Writable history.now parent.setting st.now parent.record at n) }
{
    if st.size < at {
        return Err(Refusal::Outside);
    }
    if write_too_far(at, n as u64) {
        return Err(Refusal::TooFar);
    }
    room_rows(st, history, parent, at as usize, n)?;
    let v = View {
        index: parent.index(),
        end: st.end as usize,
        own: &st.pages[..st.n as usize],
    };
    if view::range_wrong(history, v, at as usize, n) {
        return Err(Refusal::PageSum);
    }
    Ok(())
}

// Writes the pages, and lets the session grow to the end of what was written.
fn put_written(
    st: State,
    original: &[u8],
    history: &mut [u8],
    parent: Revision,
    at: usize,
    bytes: &[u8],
) -> State
    requires { Writable history.old parent.setting st parent.record at (length bytes.now) }
    ensures { let s = parent.setting in
        ◌≡◌ {A = Held} (record { history = history.exit.now; session = result })
        (written original.now s (index_of history.entry.now s.form parent.record) at bytes.now (record { history = history.entry.now; session = st })) }
{
    let size = (st.size as usize).max(at + bytes.len());
    let write = Write {
        original,
        setting: parent.setting,
        index: parent.index(),
        offset: at,
        bytes,
    };
    let mut t = write.put(history, st);
    t.size = size as u64;
    t
}

// Writes bytes into a session from an offset on. A refusal leaves history and session alone.
pub fn write(
    st: &mut State,
    original: &[u8],
    history: &mut [u8],
    at: u64,
    bytes: &[u8],
) -> Result<(), Refusal>
    ensures { ◌≡◌ {A = Outcome} (record { number = told result; session = st.new; bytes = history.new })
        (write st.old original.now history.old at bytes.now) }
{
    let parent = sessions::judge(&*st, original, history)?;
    write_rows(&*st, history, parent, at, bytes.len())?;
    *st = put_written(*st, original, history, parent, at as usize, bytes);
    Ok(())
}
