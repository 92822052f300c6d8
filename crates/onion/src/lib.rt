// The store for C: each export lends its arguments on to the public store. A slice is a pointer and a length, structs go by value
// as include/onion.h lays them out.
#![tactic(auto)]

ghost use Rattle.std.specs.Prelude.{◌≡◌};
ghost use Rattle.rules.specs.Checksum.{checksum};
ghost use Rattle.rules.specs.Layout.{limit};
ghost use Rattle.rules.specs.Listing.{list};
ghost use Rattle.rules.specs.Telling.{tell_setting, tell_record};
ghost use Rattle.rules.specs.Refusals.{told};
ghost use Rattle.lookup.specs.Lies.{found};
ghost use Rattle.checking.specs.Faults.{checked};
ghost use Rattle.browsing.specs.Answers.{browsed, stepped};
ghost use Rattle.listing.specs.Written.{listed};
ghost use Rattle.rules.specs.Calls.{Reply, Outcome, create, open_for_writing, write, commit, release, read, session_read, look_up, check, browse, browse_step};

use browsing::Stands;
use checking::Fault;
use lookup::Page;
use rules::{Browsed, Checked, Found, Part, RecordTold, Refusal, SettingTold, Step};
use store::{Answer, Session};

// ---- What the calls answer, in the numbers that C knows

// 0 where the call was accepted.
fn number(answered: Result<(), Refusal>) -> u64
    ensures { result ≡ told answered }
{
    match answered {
        Ok(()) => 0,
        Err(refusal) => u64::from(refusal),
    }
}

fn found(answered: Result<Page, Refusal>) -> Found
    ensures { result ≡ found answered }
{
    match answered {
        Ok(page) => Found {
            number: 0,
            source: page.source as u64,
            offset: page.offset,
            length: page.length,
        },
        Err(refusal) => Found {
            number: u64::from(refusal),
            ..Found::default()
        },
    }
}

fn checked(answered: Result<(), Fault>) -> Checked
    ensures { result ≡ checked answered }
{
    match answered {
        Ok(()) => Checked::default(),
        Err(fault) => Checked {
            number: u64::from(fault.refusal),
            revision: fault.revision,
            entry: fault.entry,
        },
    }
}

fn browsed(answered: Result<Part, Refusal>) -> Browsed
    ensures { result ≡ browsed answered }
{
    match answered {
        Ok(part) => Browsed {
            number: 0,
            offset: part.offset,
            length: part.length,
        },
        Err(refusal) => Browsed {
            number: u64::from(refusal),
            ..Browsed::default()
        },
    }
}

// Kind 0 is an entry, 1 the end and 7 refused.
fn stepped(stands: Stands) -> Step
    ensures { result ≡ stepped stands }
{
    match stands {
        Stands::Entry { entry, sum } => Step {
            kind: 0,
            logical: entry.logical,
            physical: entry.physical,
            page_sum: entry.checksum,
            entry_sum: sum,
        },
        Stands::End => Step {
            kind: 1,
            ..Step::default()
        },
        Stands::Refused => Step {
            kind: 7,
            ..Step::default()
        },
    }
}

// ---- The calls

#[unsafe(no_mangle)]
pub extern "C" fn onion_create(history: &mut [u8], original: u64, page: u64, branching: bool) -> u64
    ensures { ◌≡◌ {A = Reply} (record { number = result; bytes = history.new })
        (create history.old original page branching) }
{
    number(opening::create(history, original, page, branching))
}

#[unsafe(no_mangle)]
pub extern "C" fn onion_open(original: &[u8], history: &mut [u8], revision: u64) -> Answer
    ensures { ◌≡◌ {A = Outcome} (record { number = result.number; session = result.session.state; bytes = history.new })
        (open_for_writing original.now history.old revision) }
{
    store::open_for_writing(original, history, revision)
}

#[unsafe(no_mangle)]
pub extern "C" fn onion_write(
    session: Session,
    original: &[u8],
    history: &mut [u8],
    at: u64,
    bytes: &[u8],
) -> Answer
    ensures { ◌≡◌ {A = Outcome} (record { number = result.number; session = result.session.state; bytes = history.new })
        (write session.state original.now history.old at bytes.now) }
{
    session.write(original, history, at, bytes)
}

#[unsafe(no_mangle)]
pub extern "C" fn onion_commit(
    session: Session,
    history: &mut [u8],
    time: &[u8],
    user: u32,
    name: &[u8],
    comment: &[u8],
) -> Answer
    ensures { ◌≡◌ {A = Outcome} (record { number = result.number; session = result.session.state; bytes = history.new })
        (commit session.state history.old time.now user name.now comment.now) }
{
    session.commit(history, time, user, name, comment)
}

#[unsafe(no_mangle)]
pub extern "C" fn onion_release(session: Session, history: &mut [u8]) -> Answer
    ensures { ◌≡◌ {A = Outcome} (record { number = result.number; session = result.session.state; bytes = history.new })
        (release session.state history.old) }
{
    session.release(history)
}

#[unsafe(no_mangle)]
pub extern "C" fn onion_read(
    original: &[u8],
    history: &[u8],
    revision: u64,
    at: u64,
    out: &mut [u8],
) -> u64
    ensures { ◌≡◌ {A = Reply} (record { number = result; bytes = out.new })
        (read original.now history.now revision at out.old) }
{
    number(reading::read(original, history, revision, at, out))
}

#[unsafe(no_mangle)]
pub extern "C" fn onion_session_read(
    session: Session,
    original: &[u8],
    history: &[u8],
    at: u64,
    out: &mut [u8],
) -> Answer
    ensures { ◌≡◌ {A = Outcome} (record { number = result.number; session = result.session.state; bytes = out.new })
        (session_read session.state original.now history.now at out.old) }
{
    session.read(original, history, at, out)
}

#[unsafe(no_mangle)]
pub extern "C" fn onion_look_up(
    original: &[u8],
    history: &[u8],
    revision: u64,
    address: u64,
) -> Found
    ensures { result ≡ look_up original.now history.now revision address }
{
    found(lookup::look_up_place(original, history, revision, address))
}

#[unsafe(no_mangle)]
pub extern "C" fn onion_check(history: &[u8]) -> Checked
    ensures { result ≡ check history.now }
{
    checked(checking::check(history))
}

#[unsafe(no_mangle)]
pub extern "C" fn onion_setting_of(history: &[u8]) -> SettingTold
    ensures { result ≡ tell_setting history.now }
{
    telling::setting_of(history)
}

#[unsafe(no_mangle)]
pub extern "C" fn onion_record_of(history: &[u8], revision: u64) -> RecordTold
    ensures { result ≡ tell_record history.now revision }
{
    telling::record_of(history, revision)
}

#[unsafe(no_mangle)]
pub extern "C" fn onion_list(history: &[u8], out: &mut [u8]) -> u64
    ensures { listed result out.new ≡ list limit history.now out.old }
{
    listing::list(history, out, layout::LIMIT as usize) as u64
}

#[unsafe(no_mangle)]
pub extern "C" fn onion_browse(history: &[u8], revision: u64) -> Browsed
    ensures { result ≡ browse history.now revision }
{
    browsed(browsing::browse_place(history, revision))
}

#[unsafe(no_mangle)]
pub extern "C" fn onion_browse_step(record: &[u8], place: u64) -> Step
    ensures { result ≡ browse_step «record».now place }
{
    stepped(browsing::step_at(record, place))
}

#[unsafe(no_mangle)]
pub extern "C" fn onion_checksum(bytes: &[u8]) -> u32
    ensures { result ≡ checksum bytes.now }
{
    checksum::fletcher32_any(bytes) as u32
}
