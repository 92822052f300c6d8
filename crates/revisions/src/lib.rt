// The revision that a caller asks for: row 6, which revision a number means, and the rows up to those of its record.
#![tactic(auto)]

ghost use Rattle.std.specs.Prelude.{◌≡◌, IfOk};
ghost use Rattle.rules.specs.Rows.{revision_unknown};
ghost use Rattle.rules.specs.Calls.{row, ◌then◌, record_rows, asked, revision_rows, browse_rows};
ghost use Rattle.rules.specs.Refusals.{told};
ghost use Rattle.records.specs.Sound.{Standing};

use records::Revision;
use rules::{Refusal, Setting};
use whole::History;

// 2^64 - 1 asks for the newest.
const NEWEST: u64 = u64::MAX;

// Row 6.
pub fn revision_unknown(s: Setting, revision: u64) -> bool
    ensures { result ≡ revision_unknown s revision }
{
    (s.count < revision) & (revision != NEWEST)
}

// The revision that a number means.
pub fn asked(s: Setting, revision: u64) -> u64
    ensures { result ≡ asked s revision }
{
    if revision == NEWEST {
        return s.count;
    }
    revision
}

// Rows 6, 7, 8 of a sound history.
fn judge_asked(history: History<'_>, revision: u64) -> Result<Revision, Refusal>
    ensures number { let s = history.entry.setting in told result ≡ row 6 (revision_unknown s revision) then record_rows history.entry.bytes.now s (asked s revision) }
    ensures standing { IfOk result (λ r. Standing history.entry.bytes.now r.setting (asked r.setting revision) r.record) }
{
    let s = history.setting;
    if revision_unknown(s, revision) {
        return Err(Refusal::Revision);
    }
    let record = records::judge(history, asked(s, revision))?;
    Ok(Revision { setting: s, record })
}

// Rows 1 to 8.
pub fn judge(original: &[u8], history: &[u8], revision: u64) -> Result<Revision, Refusal>
    ensures number { told result ≡ revision_rows original.now history.now revision }
    ensures standing { IfOk result (λ r. Standing history.now r.setting (asked r.setting revision) r.record) }
{
    let history = whole::judge_both(original, history)?;
    judge_asked(history, revision)
}

// Rows 1, 2, 3, 5, 6, 7, 8, where no original is lent: by itself, since the paper has an order for it by itself.
pub fn judge_alone(history: &[u8], revision: u64) -> Result<Revision, Refusal>
    ensures number { told result ≡ browse_rows history.now revision }
    ensures standing { IfOk result (λ r. Standing history.now r.setting (asked r.setting revision) r.record) }
{
    let history = whole::judge(history)?;
    judge_asked(history, revision)
}
