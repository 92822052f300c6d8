// The worked examples of document 01, run through the compiled store: each line is what a call answered.
#![tactic(auto)]

ghost use Rattle.std.specs.Prelude.{◌≤◌, length};

use browsing::Stands;
use rules::{Refusal, State};
use std::io;
use store::Session;
use whole::History;

// A pattern of twenty bytes.
const ORIGINAL: [u8; 20] = *b"shade net, two bars.";

const FIRST: [u8; 16] = *b"20240305T070000Z";

const SECOND: [u8; 16] = *b"20240305T091500Z";

// The number that a call answers: 0 where it was accepted.
fn number<T: Copy>(answered: Result<T, Refusal>) -> u64 {
    match answered {
        Ok(_) => 0,
        Err(refusal) => u64::from(refusal),
    }
}

fn say(rt: &impl Print, what: &[u8], number: u64) -> io::Result<()> {
    rt.write_all(what)?;
    println!(rt; " {number}")
}

fn show_checksum(rt: &impl Print, bytes: &[u8]) -> io::Result<()> {
    let sums = checksum::fletcher32_any(bytes);
    println!(rt; "checksum 0x{sums:08x}")
}

fn of_checksums(rt: &impl Print) -> io::Result<()> {
    show_checksum(rt, b"")?;
    show_checksum(rt, &[1])?;
    show_checksum(rt, &[0, 1])?;
    show_checksum(rt, &[255, 255])?;
    show_checksum(rt, &[255, 255, 0, 1])
}

fn show_creation(rt: &impl Print, page: u64) -> io::Result<()> {
    let mut history = [0u8; 512];
    print!(rt; "page size {page}")?;
    say(
        rt,
        b" created",
        number(opening::create(&mut history, 20, page, false)),
    )
}

fn of_page_sizes(rt: &impl Print) -> io::Result<()> {
    show_creation(rt, 16)?;
    show_creation(rt, 4096)?;
    show_creation(rt, 8)?;
    show_creation(rt, 24)?;
    show_creation(rt, 8192)
}

// The first two places for pages that a session touched; unused places are 0.
fn show_pages(rt: &impl Print, pages: &[u32]) -> io::Result<()>
    requires { 2 ≤ length pages.now }
{
    say(rt, b"  its first page", pages[0] as u64)?;
    say(rt, b"  its second page", pages[1] as u64)
}

// The numbers of a session, and its pages.
fn show_session(rt: &impl Print, session: Session) -> io::Result<()> {
    let state: State = session.state;
    say(rt, b"  its end", state.end)?;
    say(rt, b"  its parent", state.parent)?;
    say(rt, b"  its size", state.size)?;
    say(rt, b"  its pages", state.n)?;
    show_pages(rt, &state.pages)
}

// Where a revision's page lies in the history.
fn show_page(rt: &impl Print, history: &[u8], revision: u64, address: u64) -> io::Result<()> {
    let found = lookup::look_up_place(&ORIGINAL, history, revision, address);
    say(rt, b"  look-up", number(found))?;
    let Ok(page) = found else {
        return Ok(());
    };
    say(rt, b"  its source", page.source as u64)?;
    say(rt, b"  its offset", page.offset)?;
    say(rt, b"  its length", page.length)
}

// Where the newest revision's record and the whole history lie.
fn show_places(rt: &impl Print, history: &[u8]) -> io::Result<()> {
    let Ok(record) = browsing::browse_place(history, u64::MAX) else {
        return Ok(());
    };
    say(rt, b"  record at", record.offset)?;
    say(rt, b"  of", record.length)?;
    let Ok(History { setting, .. }) = whole::judge(history) else {
        return Ok(());
    };
    say(rt, b"  whole history at", setting.address)?;
    say(rt, b"  of", setting.size)
}

fn show_step(rt: &impl Print, record: &[u8], place: u64) -> io::Result<()> {
    let (kind, logical, physical) = match browsing::step_at(record, place) {
        Stands::Entry { entry, .. } => (0, entry.logical, entry.physical),
        Stands::End => (1, 0, 0),
        Stands::Refused => (7, 0, 0),
    };
    say(rt, b"  step", kind)?;
    say(rt, b"    logical", logical)?;
    say(rt, b"    physical", physical)
}

// The index entries of a revision that has two, and the end behind them.
fn show_index(rt: &impl Print, history: &[u8], revision: u64) -> io::Result<()> {
    let record = browsing::record_part(history, revision);
    show_step(rt, record, 0)?;
    show_step(rt, record, 1)?;
    show_step(rt, record, 2)
}

// The bytes of a revision.
fn show_bytes(
    rt: &impl Print,
    history: &[u8],
    revision: u64,
    at: u64,
    out: &mut [u8],
) -> io::Result<()> {
    let answered = reading::read(&ORIGINAL, history, revision, at, out);
    say(rt, b"read", number(answered))?;
    print!(rt; "  ")?;
    rt.write_all(out)?;
    println!(rt)
}

fn show_revisions(rt: &impl Print, history: &[u8]) -> io::Result<()> {
    let mut before = [0x2Eu8; 20];
    show_bytes(rt, history, 0, 0, &mut before)?;
    let mut first = [0x2Eu8; 20];
    show_bytes(rt, history, 1, 0, &mut first)?;
    let mut second = [0x2Eu8; 21];
    show_bytes(rt, history, 2, 0, &mut second)
}

fn show_list(rt: &impl Print, history: &[u8]) -> io::Result<()> {
    let mut text = [0u8; 169068];
    let length = listing::list_program(history, &mut text);
    rt.write_all(&text[..length])
}

// ---- Session calls, each with what it answers

fn open(rt: &impl Print, history: &mut [u8], revision: u64) -> io::Result<Session> {
    let answer = store::open_for_writing(&ORIGINAL, history, revision);
    say(rt, b"open", answer.number)?;
    show_session(rt, answer.session)?;
    Ok(answer.session)
}

fn write(
    rt: &impl Print,
    session: Session,
    history: &mut [u8],
    at: u64,
    bytes: &[u8],
) -> io::Result<Session> {
    let answer = session.write(&ORIGINAL, history, at, bytes);
    say(rt, b"write", answer.number)?;
    show_session(rt, answer.session)?;
    Ok(answer.session)
}

fn commit(rt: &impl Print, session: Session, history: &mut [u8], time: &[u8]) -> io::Result<()> {
    let answer = session.commit(history, time, 7, b"ana\0", b"\0");
    say(rt, b"commit", answer.number)?;
    show_session(rt, answer.session)?;
    show_places(rt, history)
}

fn release(rt: &impl Print, session: Session, history: &mut [u8]) -> io::Result<Session> {
    let answer = session.release(history);
    say(rt, b"release", answer.number)?;
    show_session(rt, answer.session)?;
    Ok(answer.session)
}

// ---- The examples of a history

// The edge of a write: no bytes at the size are accepted, and behind it they are refused.
fn of_the_edge(rt: &impl Print, history: &mut [u8]) -> io::Result<()> {
    let session = open(rt, history, 0)?;
    let none = write(rt, session, history, 20, b"")?;
    let past = write(rt, none, history, 21, b"")?;
    of_release(rt, past, history)
}

// A released session leaves scratch behind the end, which nothing looks at; the ended session is refused.
fn of_release(rt: &impl Print, session: Session, history: &mut [u8]) -> io::Result<()> {
    let scratch = write(rt, session, history, 0, b"scratch")?;
    let ended = release(rt, scratch, history)?;
    write(rt, ended, history, 0, b"late")?;
    Ok(())
}

fn of_the_first(rt: &impl Print, history: &mut [u8]) -> io::Result<()> {
    let session = open(rt, history, 0)?;
    let written = write(rt, session, history, 14, b"four")?;
    commit(rt, written, history, &FIRST)?;
    show_page(rt, history, 1, 0)?;
    show_page(rt, history, 1, 16)
}

fn of_the_second(rt: &impl Print, history: &mut [u8]) -> io::Result<()> {
    let session = open(rt, history, 1)?;
    let written = write(rt, session, history, 20, b"!")?;
    commit(rt, written, history, &SECOND)?;
    show_index(rt, history, 2)
}

fn of_reading(rt: &impl Print, history: &[u8]) -> io::Result<()> {
    let mut byte = [0x2Eu8; 1];
    show_bytes(rt, history, 1, 20, &mut byte)?;
    show_bytes(rt, history, 2, 20, &mut byte)?;
    show_revisions(rt, history)?;
    let checked = checking::check(history).map_err(|fault| fault.refusal);
    say(rt, b"check", number(checked))?;
    if history.len() < 466 {
        return Ok(());
    }
    show_list(rt, &history[..466])
}

fn of_the_history(rt: &impl Print, history: &mut [u8]) -> io::Result<()> {
    say(
        rt,
        b"create",
        number(opening::create(history, 20, 16, false)),
    )?;
    of_the_edge(rt, history)?;
    of_the_first(rt, history)?;
    of_the_second(rt, history)?;
    of_reading(rt, history)
}

fn main(rt: HostRuntime) -> io::Result<()> {
    of_checksums(&rt)?;
    of_page_sizes(&rt)?;
    let mut history = [0xEEu8; 512];
    of_the_history(&rt, &mut history)
}
