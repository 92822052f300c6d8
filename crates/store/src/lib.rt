// A session as its user holds it: a value that each call takes and hands back. It has a kilobyte, so the calls below borrow it.
#![tactic(auto)]

ghost use Rattle.std.specs.Prelude.{◌≡◌};
ghost use Rattle.rules.specs.Refusals.{told};
ghost use Rattle.rules.specs.Calls.{Outcome, open_for_writing, session_read, write, commit, release};

use rules::{Refusal, State};

// Any numbers whatever may stand in a session; row 13 tells whether it is one of the history.
#[repr(C)]
#[derive(Clone, Copy)]
pub struct Session {
    pub state: State,
}

// What a session call answers: its number, and the session handed back. The paper asks for both side by side, and C takes them so.
#[repr(C)]
#[derive(Clone, Copy)]
pub struct Answer {
    pub number: u64,
    pub session: Session,
}

// An answer beside the session that the call left: of a refused call, the one that it was given.
fn beside(answered: Result<(), Refusal>, state: State) -> Answer
    ensures { (result.number ≡ told answered) × (result.session.state ≡ state) }
{
    let number = match answered {
        Ok(()) => 0,
        Err(refusal) => u64::from(refusal),
    };
    Answer {
        number,
        session: Session { state },
    }
}

impl Session {
    // Reads the session's bytes from an offset on into a buffer, which it fills entirely.
    pub fn read(self, original: &[u8], history: &[u8], at: u64, out: &mut [u8]) -> Answer
        ensures { ◌≡◌ {A = Outcome} (record { number = result.number; session = result.session.state; bytes = out.new })
            (session_read self.state original.now history.now at out.old) }
    {
        let state = self.state;
        let read = session_reading::session_read(&state, original, history, at, out);
        beside(read, state)
    }

    // Writes bytes from an offset on.
    pub fn write(self, original: &[u8], history: &mut [u8], at: u64, bytes: &[u8]) -> Answer
        ensures { ◌≡◌ {A = Outcome} (record { number = result.number; session = result.session.state; bytes = history.new })
            (write self.state original.now history.old at bytes.now) }
    {
        let mut state = self.state;
        let written = writing::write(&mut state, original, history, at, bytes);
        beside(written, state)
    }

    // Commits what was written as a new revision.
    pub fn commit(
        self,
        history: &mut [u8],
        time: &[u8],
        user: u32,
        name: &[u8],
        comment: &[u8],
    ) -> Answer
        ensures { ◌≡◌ {A = Outcome} (record { number = result.number; session = result.session.state; bytes = history.new })
            (commit self.state history.old time.now user name.now comment.now) }
    {
        let mut state = self.state;
        let committed = committing::commit(&mut state, history, time, user, name, comment);
        beside(committed, state)
    }

    // Gives up what was written, and clears the lock.
    pub fn release(self, history: &mut [u8]) -> Answer
        ensures { ◌≡◌ {A = Outcome} (record { number = result.number; session = result.session.state; bytes = history.new })
            (release self.state history.old) }
    {
        let mut state = self.state;
        let released = opening::release(&mut state, history);
        beside(released, state)
    }
}

// Opens a revision for writing. Where it is refused, the session handed back is the ended one.
pub fn open_for_writing(original: &[u8], history: &mut [u8], revision: u64) -> Answer
    ensures { ◌≡◌ {A = Outcome} (record { number = result.number; session = result.session.state; bytes = history.new })
        (open_for_writing original.now history.old revision) }
{
    match opening::open_for_writing(original, history, revision) {
        Ok(state) => beside(Ok(()), state),
        Err(refusal) => beside(Err(refusal), sessions::ended()),
    }
}
