// Creation, opening for writing and release.
#![tactic(auto)]

ghost use Rattle.std.specs.Prelude.{◌≡◌, ◌≤◌, length, IfOk};
ghost use Rattle.rules.specs.Layout.{header_width, setting_of, with_lock};
ghost use Rattle.rules.specs.Session.{ended, created_form, created_setting, opened, released};
ghost use Rattle.rules.specs.Rows.{creation_wrong, not_newest};
ghost use Rattle.rules.specs.Calls.{Reply, Outcome, outcome, asked, create, open_rows, open_for_writing, release};
ghost use Rattle.rules.specs.Refusals.{told};
ghost use Rattle.layout.specs.Paged.{Paged, farthest};
ghost use Rattle.records.specs.Sound.{Standing};

use records::Revision;
use rules::{Form, Refusal, Setting, State};

// ---- Creation

// Row 17.
fn creation_wrong(original: u64, page: u64) -> bool
    ensures { result ≡ creation_wrong original page }
{
    !(header::page_allowed(page) & (original <= layout::LIMIT))
}

// What a new history says of itself: its whole history stands behind the header and is empty.
fn created_setting(original: u64, page: u64, branching: bool) -> Setting
    requires { Paged (created_form page) }
    ensures { result ≡ created_setting original page branching }
{
    let form = Form { page };
    Setting {
        form,
        original,
        address: layout::header_end(form),
        size: layout::whole_size(0),
        count: 0,
        lock: false,
        branching,
    }
}

// Creates a history. The header is stored last: until it stands, there is no history.
pub fn create(history: &mut [u8], original: u64, page: u64, branching: bool) -> Result<(), Refusal>
    ensures { ◌≡◌ {A = Reply} (record { number = told result; bytes = history.new })
        (create history.old original page branching) }
{
    if header::length_wrong(layout::created_length(page), history.len()) {
        return Err(Refusal::Length);
    }
    if creation_wrong(original, page) {
        return Err(Refusal::Creation);
    }
    let s = created_setting(original, page, branching);
    whole::put_empty(history, s.form, s.address as usize);
    header::put_header(history, s);
    Ok(())
}

// ---- Opening for writing

// Row 12.
fn not_newest(s: Setting, k: u64) -> bool
    ensures { result ≡ not_newest s k }
{
    !s.branching & (k != s.count)
}

// Rows 1 to 6, 11, 12, 18, 7, 8.
fn judge(original: &[u8], history: &[u8], revision: u64) -> Result<Revision, Refusal>
    ensures number { told result ≡ open_rows original.now history.now revision }
    ensures standing { IfOk result (λ r. Standing history.now r.setting (asked r.setting revision) r.record) }
{
    let history = whole::judge_both(original, history)?;
    let setting = history.setting;
    if revisions::revision_unknown(setting, revision) {
        return Err(Refusal::Revision);
    }
    if setting.lock {
        return Err(Refusal::Locked);
    }
    let k = revisions::asked(setting, revision);
    if not_newest(setting, k) {
        return Err(Refusal::NotNewest);
    }
    if layout::REVISIONS <= setting.count {
        return Err(Refusal::Full);
    }
    let record = records::judge(history, k)?;
    Ok(Revision { setting, record })
}

// The setting with its lock set or clear.
fn with_lock(s: Setting, lock: bool) -> Setting
    ensures { result ≡ with_lock lock s }
{
    let mut changed = s;
    changed.lock = lock;
    changed
}

// The session that starts as a parent's view.
fn opened(s: Setting, parent: u64, logical: u64) -> State
    requires { (Paged s.form) × (s.address ≤ farthest) × (s.size ≤ farthest) }
    ensures { result ≡ opened s parent logical }
{
    let form = s.form;
    State {
        end: layout::end_of(form, s.address, s.size),
        count: s.count,
        parent,
        size: logical,
        n: 0,
        pages: [0; 256],
    }
}

// Opens a revision for writing. The header, with the lock set, is all that is stored. A refused open leaves the ended session.
pub fn open_for_writing(
    original: &[u8],
    history: &mut [u8],
    revision: u64,
) -> Result<State, Refusal>
    ensures { outcome ended result history.new ≡ open_for_writing original.now history.old revision }
{
    let parent = judge(original, history, revision)?;
    let s = parent.setting;
    let k = revisions::asked(s, revision);
    header::put_header(history, with_lock(s, true));
    Ok(opened(s, k, parent.record.logical))
}

// ---- Release

// Clears the lock. A history that is not locked is left as it is.
fn unlock(history: &mut [u8])
    requires { header_width ≤ length history.old }
    ensures { history.new ≡ released history.old (setting_of history.old) }
{
    let s = header::setting_with(history, 0);
    if !s.lock {
        return;
    }
    header::put_header(history, with_lock(s, false));
}

// Clears the lock and ends the session, whichever it is.
pub fn release(st: &mut State, history: &mut [u8]) -> Result<(), Refusal>
    ensures { ◌≡◌ {A = Outcome} (record { number = told result; session = st.new; bytes = history.new })
        (release st.old history.old) }
{
    header::header_rows(history)?;
    unlock(history);
    *st = sessions::ended();
    Ok(())
}
