// Reading a session: its own pages first, then those of its parent.
#![tactic(auto)]

ghost use Rattle.std.specs.Prelude.{◌≡◌};
ghost use Rattle.rules.specs.Calls.{Outcome, session_read};
ghost use Rattle.rules.specs.Refusals.{told};

use rules::{Refusal, State};
use view::View;

// Reads the bytes of a session from an offset on into a buffer, which it fills entirely. A refusal leaves the buffer alone.
pub fn session_read(
    st: &State,
    original: &[u8],
    history: &[u8],
    at: u64,
    out: &mut [u8],
) -> Result<(), Refusal>
    ensures { ◌≡◌ {A = Outcome} (record { number = told result; session = st.now; bytes = out.new })
        (session_read st.now original.now history.now at out.old) }
{
    let parent = sessions::judge(st, original, history)?;
    let v = View {
        index: parent.index(),
        end: st.end as usize,
        own: &st.pages[..st.n as usize],
    };
    reading::range_rows(history, v, st.size, at, out.len())?;
    view::put_view(out, original, history, v, at as usize);
    Ok(())
}
