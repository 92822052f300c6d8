// Looking up a page: it is handed back as a part of the original or of the history, and not as a copy.
#![tactic(auto)]

ghost use Rattle.std.specs.Prelude.{◌≡◌, true, cond, ◌+◌, ◌≤◌, eqb};
ghost use Rattle.rules.specs.Layout.{page_allowed, limit};
ghost use Rattle.rules.specs.Rows.{look_up_outside};
ghost use Rattle.rules.specs.Calls.{look_up};
ghost use Rattle.view.specs.Seen.{Seen};
ghost use Rattle.lookup.specs.Lies.{found, Lies, look_up_in, page_at};

use rules::Refusal;
use view::View;

// Row 10 of a look-up.
fn look_up_outside(page: u64, size: u64, address: u64) -> bool
    requires { page_allowed page ≡ true }
    ensures { result ≡ look_up_outside page size address }
{
    (size <= address) | !numbers::multiple(address, page)
}

// The slice that a page lies in.
#[derive(Clone, Copy, Debug, PartialEq, Eq)]
pub enum Source {
    Original,
    History,
}

// A page as a part of one of the two slices.
#[derive(Clone, Copy)]
pub struct Page {
    pub source: Source,
    pub offset: u64,
    pub length: u64,
}

// Where the page lies, once rows 1 to 8 have passed: rows 10, 20 and 9, and then the place.
fn found_in(
    original: &[u8],
    history: &[u8],
    v: View,
    size: u64,
    address: u64,
) -> Result<Page, Refusal>
    requires { (Seen history.now v) × (size ≤ limit) }
    ensures value { found result ≡ look_up_in original.now history.now v.entry.index size address }
    ensures lies { Lies original.now history.now (found result) }
{
    let x = v.index;
    let page = x.form.page;
    if look_up_outside(page, size, address) {
        return Err(Refusal::Outside);
    }
    let length = page.min(size.saturating_sub(address));
    let Some(place) = index::find(history, x, address) else {
        if (original.len() as u64) < address + length {
            return Err(Refusal::NotInOriginal);
        }
        return Ok(Page {
            source: Source::Original,
            offset: address,
            length,
        });
    };
    if view::page_wrong(history, v, address) {
        return Err(Refusal::PageSum);
    }
    let e = index::entry(history, x, place);
    Ok(Page {
        source: Source::History,
        offset: e.physical,
        length,
    })
}

// Where the page lies. Look-up 1 to 8, 10, 20, 9.
pub fn look_up_place(
    original: &[u8],
    history: &[u8],
    revision: u64,
    address: u64,
) -> Result<Page, Refusal>
    ensures value { found result ≡ look_up original.now history.now revision address }
    ensures lies { Lies original.now history.now (found result) }
{
    let sought = revisions::judge(original, history, revision)?;
    let v = View {
        index: sought.index(),
        end: 0,
        own: &[],
    };
    found_in(original, history, v, sought.record.logical, address)
}

// The page itself, as a part of one of the two slices; the empty part at the original's start where it is refused.
pub fn look_up<'a>(original: &'a [u8], history: &'a [u8], revision: u64, address: u64) -> &'a [u8]
    ensures holds { result.now ≡ page_at original.now history.now (look_up original.now history.now revision address) }
    ensures lies { (result.ref_ptr.0 ≡ cond (eqb (look_up original.now history.now revision address).source 1) history.entry.ref_ptr.0 original.entry.ref_ptr.0)
        × (result.ref_ptr.1 ≡ cond (eqb (look_up original.now history.now revision address).source 1) history.entry.ref_ptr.1 original.entry.ref_ptr.1 + (look_up original.now history.now revision address).offset) }
{
    let Ok(page) = look_up_place(original, history, revision, address) else {
        return &original[..0];
    };
    let start = page.offset as usize;
    let end = start + page.length as usize;
    match page.source {
        Source::Original => &original[start..end],
        Source::History => &history[start..end],
    }
}
