// Reading a revision. A revision is read as a session that has touched no page, so what both have in common stands here.
#![tactic(auto)]

ghost use Rattle.std.specs.Prelude.{◌≡◌, ◌+◌, ◌≤◌, OnOk};
ghost use Rattle.rules.specs.Layout.{limit};
ghost use Rattle.rules.specs.View.{pages_shared};
ghost use Rattle.rules.specs.Rows.{read_outside};
ghost use Rattle.rules.specs.Calls.{Reply, row, ◌then◌, read};
ghost use Rattle.rules.specs.Refusals.{told};
ghost use Rattle.view.specs.Seen.{Seen, unowned_pages_wrong};

use rules::Refusal;
use view::View;

// Row 10 of a read. The offset may be any number, so no sum is made.
fn read_outside(size: u64, at: u64, n: u64) -> bool
    ensures { result ≡ read_outside size at n }
{
    size < at || size - at < n
}

// Rows 10 and 9 of a read of n bytes from an offset on, by the logical size and the view of what is read.
pub fn range_rows(history: &[u8], v: View, size: u64, at: u64, n: usize) -> Result<(), Refusal>
    requires { (Seen history.now v) × (size ≤ limit) }
    ensures number { told result ≡ row 10 (read_outside size at n)
        then row 9 (unowned_pages_wrong history.now v.entry (pages_shared v.entry.index.form.page at n)) }
    ensures inside { OnOk result (at + n ≤ size) }
{
    if read_outside(size, at, n as u64) {
        return Err(Refusal::Outside);
    }
    if view::range_wrong(history, v, at as usize, n) {
        return Err(Refusal::PageSum);
    }
    Ok(())
}

// Reads the bytes of a revision from an offset on into a buffer, which it fills entirely. A refusal leaves the buffer alone.
pub fn read(
    original: &[u8],
    history: &[u8],
    revision: u64,
    at: u64,
    out: &mut [u8],
) -> Result<(), Refusal>
    ensures { ◌≡◌ {A = Reply} (record { number = told result; bytes = out.new })
        (read original.now history.now revision at out.old) }
{
    let read = revisions::judge(original, history, revision)?;
    let v = View {
        index: read.index(),
        end: 0,
        own: &[],
    };
    range_rows(history, v, read.record.logical, at, out.len())?;
    view::put_view(out, original, history, v, at as usize);
    Ok(())
}
