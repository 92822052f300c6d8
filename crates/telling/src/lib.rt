// What a history tells its user: what it says of itself, and what a revision's record says.
#![tactic(auto)]

ghost use Rattle.std.specs.Prelude.{◌≡◌, ◌+◌, ◌≤◌, length};
ghost use Rattle.rules.specs.Layout.{limit, entry_limit, front_width};
ghost use Rattle.rules.specs.Telling.{tell_setting, record_told, tell_record};

use rules::{Form, Part, Record, RecordTold, SettingTold};
use whole::History;

// ---- The setting

// What a history says of itself. Rows 1, 2, 3, 5.
pub fn setting_of(history: &[u8]) -> SettingTold
    ensures { result ≡ tell_setting history.now }
{
    match whole::judge(history) {
        Ok(History { setting: s, .. }) => SettingTold {
            number: 0,
            page: s.form.page,
            original: s.original,
            revisions: s.count,
            end: layout::end_of(s.form, s.address, s.size),
            lock: s.lock,
            branching: s.branching,
        },
        Err(refusal) => SettingTold {
            number: u64::from(refusal),
            ..SettingTold::default()
        },
    }
}

// ---- A revision's record

// The fields of a record, and where its texts stand.
fn record_told(history: &[u8], form: Form, k: u64, r: Record) -> RecordTold
    requires { (1 ≤ k) × (r.address + front_width form ≤ length history.now) × (length history.now ≤ limit) × (r.entries ≤ entry_limit) × (r.name ≤ limit) }
    ensures { result ≡ record_told history.now form k r }
{
    let name = records::name_at(form, r) as u64;
    RecordTold {
        number: 0,
        revision: k,
        parent: r.parent,
        logical: r.logical,
        user: records::user_of(history, form, r),
        entries: r.entries,
        time: Part {
            offset: records::time_at(r) as u64,
            length: 16,
        },
        name: Part {
            offset: name,
            length: r.name,
        },
        comment: Part {
            offset: name + r.name,
            length: r.comment,
        },
    }
}

// What the record of a revision says: of the original only its length. Rows 1, 2, 3, 5, 6, 7, 8.
pub fn record_of(history: &[u8], revision: u64) -> RecordTold
    ensures { result ≡ tell_record history.now revision }
{
    let judged = match revisions::judge_alone(history, revision) {
        Ok(judged) => judged,
        Err(refusal) => {
            return RecordTold {
                number: u64::from(refusal),
                ..RecordTold::default()
            };
        }
    };
    let s = judged.setting;
    let r = judged.record;
    let k = revisions::asked(s, revision);
    if k == 0 {
        return RecordTold {
            logical: r.logical,
            ..RecordTold::default()
        };
    }
    record_told(history, s.form, k, r)
}
