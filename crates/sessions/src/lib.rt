// A session's rows: 13, then 7 and 8 of its parent, then the last condition of 13; and the rows ahead of them.
#![tactic(auto)]

ghost use Rattle.std.specs.Prelude.{◌≡◌, true, ◌+◌, ◌<◌, length, drop, get_or, IfOk};
ghost use Rattle.rules.specs.Layout.{page_allowed};
ghost use Rattle.rules.specs.Orders.{Rising};
ghost use Rattle.rules.specs.View.{has};
ghost use Rattle.rules.specs.Session.{ended};
ghost use Rattle.rules.specs.Rows.{pages_fit, session_wrong};
ghost use Rattle.rules.specs.Calls.{session_rows, begin_rows, held_rows};
ghost use Rattle.rules.specs.Refusals.{told};
ghost use Rattle.sessions.specs.Sound.{SoundSession};

use records::Revision;
use rules::{Refusal, State};
use whole::History;

// The ended session, which fits no history.
pub fn ended() -> State
    ensures { result ≡ ended }
{
    State {
        end: 0,
        count: 0,
        parent: 0,
        size: 0,
        n: 0,
        pages: [0; 256],
    }
}

// ---- Row 13

// Whether the page at a place comes again behind it. Pages that rise do not.
fn comes_again(pages: &[u32], rising: bool, place: usize) -> bool
    requires place { place < length pages.now }
    requires rising { rising ≡ true → Rising pages.now }
    ensures { result ≡ has (drop (place + 1) pages.now) (get_or pages.now place 0) }
{
    !rising && index::own_place(&pages[place + 1..], u64::from(pages[place])).is_some()
}

// Whether each page is a multiple of the page size, lies below the size and comes no second time.
fn pages_fit(pages: &[u32], page: u64, size: u64) -> bool
    requires { page_allowed page ≡ true }
    ensures { result ≡ pages_fit page size pages.now }
{
    let rising = index::rise(pages);
    pages.iter().enumerate().all(|(place, own)| {
        !comes_again(pages, rising, place)
            && numbers::multiple(u64::from(*own), page)
            && u64::from(*own) < size
    })
}

// Row 13, but for its last condition. The session may be any numbers, so a sum waits until its parts are known to be small.
fn session_wrong(history: History<'_>, st: &State) -> bool
    ensures { result ≡ session_wrong (length history.entry.bytes.now) history.entry.setting st.now }
{
    let s = history.setting;
    let form = s.form;
    let fitting = s.lock
        & (st.end == layout::end_of(form, s.address, s.size))
        & (st.count == s.count)
        & (st.count < layout::REVISIONS)
        & (st.parent <= st.count)
        & (s.branching | (st.parent == st.count))
        & (st.n <= layout::TOUCHED)
        & (st.size <= layout::LIMIT);
    if !fitting {
        return true;
    }
    if (history.bytes.len() as u64) < st.end + st.n * form.page {
        return true;
    }
    !pages_fit(&st.pages[..st.n as usize], form.page, st.size)
}

// ---- A session's rows

// Rows 13, 7, 8 and the last condition of 13: the parent of a session that fits its history.
fn judge_session(st: &State, history: History<'_>) -> Result<Revision, Refusal>
    ensures number { told result ≡ session_rows history.entry.bytes.now history.entry.setting st.now }
    ensures sound { IfOk result (λ parent. SoundSession history.entry.bytes.now parent.setting st.now parent.record) }
{
    if session_wrong(history, st) {
        return Err(Refusal::Session);
    }
    let record = records::judge(history, st.parent)?;
    if st.size < record.logical {
        return Err(Refusal::Session);
    }
    Ok(Revision {
        setting: history.setting,
        record,
    })
}

// Rows 1 to 5, 13, 7, 8, which session read and write begin with.
pub fn judge(st: &State, original: &[u8], history: &[u8]) -> Result<Revision, Refusal>
    ensures number { told result ≡ begin_rows st.now original.now history.now }
    ensures sound { IfOk result (λ parent. SoundSession history.now parent.setting st.now parent.record) }
{
    let history = whole::judge_both(original, history)?;
    judge_session(st, history)
}

// Rows 1, 2, 3, 5, 13, 7, 8, which commit begins with: by itself, since the paper has an order for it by itself.
pub fn judge_alone(st: &State, history: &[u8]) -> Result<Revision, Refusal>
    ensures number { told result ≡ held_rows st.now history.now }
    ensures sound { IfOk result (λ parent. SoundSession history.now parent.setting st.now parent.record) }
{
    let history = whole::judge(history)?;
    judge_session(st, history)
}
