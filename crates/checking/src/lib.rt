// The whole check: the first fault of a history, revision after revision and entry after entry.
#![tactic(auto)]

ghost use Rattle.std.specs.Prelude.{◌≡◌};
ghost use Rattle.rules.specs.Calls.{check_revisions, check};
ghost use Rattle.checking.specs.Faults.{checked};

use records::Revision;
use rules::Refusal;
use whole::History;

// A fault, with its revision and its entry; 0 where none is named.
#[derive(Clone, Copy, Debug, PartialEq, Eq)]
pub struct Fault {
    pub refusal: Refusal,
    pub revision: u64,
    pub entry: u64,
}

// The revisions in their order, each record's 7 and 8 and then its pages' 9. The first fault ends both loops.
fn check_revisions(history: History<'_>) -> Result<(), Fault>
    ensures { let s = history.entry.setting in checked result ≡ check_revisions history.entry.bytes.now s 1 s.count }
{
    let s = history.setting;
    let mut found = Ok(());
    'revisions: for k in 1..=s.count {
        let record = match records::judge(history, k) {
            Ok(record) => record,
            Err(refusal) => {
                found = Err(Fault {
                    refusal,
                    revision: k,
                    entry: 0,
                });
                break 'revisions;
            }
        };
        let x = Revision { setting: s, record }.index();
        for j in 0..x.entries {
            let e = index::entry(history.bytes, x, j);
            if parts::page_sum_wrong(history.bytes, s.form.page, e) {
                found = Err(Fault {
                    refusal: Refusal::PageSum,
                    revision: k,
                    entry: j as u64,
                });
                break 'revisions;
            }
        }
    }
    found
}

// Rows 1, 2, 3 and 5 first: they name no revision, and only behind them is the history's count known to be one.
pub fn check(history: &[u8]) -> Result<(), Fault>
    ensures { checked result ≡ check history.now }
{
    match whole::judge(history) {
        Ok(history) => check_revisions(history),
        Err(refusal) => Err(Fault {
            refusal,
            revision: 0,
            entry: 0,
        }),
    }
}
