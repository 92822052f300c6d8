// The whole history and its locations: row 5, what a history says of itself once rows 1, 2, 3 and 5 have passed, row 4 beside them,
// and the bytes of a whole history.
#![tactic(auto)]

ghost use Rattle.std.specs.Prelude.{◌≡◌, true, false, [], ◌+◌, ◌≤◌, ◌<◌, length, IfOk};
ghost use Rattle.rules.specs.Bytes.{laid};
ghost use Rattle.rules.specs.Layout.{
  limit,
  address_at,
  setting_of,
  whole_size,
  whole_bytes,
  location_width,
  location_bytes,
  location_at,
  located_size,
};
ghost use Rattle.rules.specs.Session.{setting_stored, locations_stored};
ghost use Rattle.rules.specs.Rows.{whole_wrong};
ghost use Rattle.rules.specs.Calls.{row, header_rows, history_rows, both_rows};
ghost use Rattle.rules.specs.Refusals.{told};
ghost use Rattle.layout.specs.Paged.{Paged};
ghost use Rattle.whole.specs.Sound.{Sound};
ghost use Rattle.whole.specs.Places.{Lying, Extensible};

use rules::{Form, Record, Refusal, Setting};

const SIGNATURE: [u8; 4] = *b"OWHR";

// The bytes ahead of the locations.
const FRONT: usize = 16;

// A history that rows 1, 2, 3 and 5 have passed, with what it says of itself.
#[derive(Clone, Copy)]
pub struct History<'a> {
    pub bytes: &'a [u8],
    pub setting: Setting,
    ghost sound: { Sound bytes.now setting },
}

// ---- Row 5

// Whether the whole history lies where it may. Address and size may be any numbers, so each sum waits until its parts are small.
fn lies(room: u64, s: Setting) -> bool
    requires { (Paged s.form) × (room ≤ limit) }
    ensures { (result ≡ true → Lying room s) × (result ≡ false → Lying room s → ⊥) }
{
    let form = s.form;
    if room < s.address {
        return false;
    }
    if room - s.address < s.size {
        return false;
    }
    (layout::header_end(form) <= s.address)
        & (layout::end_of(form, s.address, s.size) <= room)
        & (layout::whole_size(0) <= s.size)
}

// Whether what stands in the whole history is wrong, once it lies where it may.
fn whole_wrong(history: &[u8], s: Setting) -> bool
    requires { (Lying (length history.now) s) × (length history.now ≤ limit) }
    ensures { result ≡ whole_wrong history.now s }
{
    if layout::REVISIONS < s.count {
        return true;
    }
    if s.size != layout::whole_size(s.count) {
        return true;
    }
    let form = s.form;
    let at = s.address as usize;
    let before = s.size as usize - 4;
    !(parts::starts(history, at, form, SIGNATURE)
        & parts::sum_stands(history, at, before, at + before)
        & parts::sums_stand(
            history,
            at + FRONT,
            s.count as usize,
            layout::LOCATION,
            FRONT,
        ))
}

// Row 5 of a history that rows 1 to 3 have passed: what the history says of itself. Its count is read once it is known to stand there.
fn judge_whole<'a>(history: &'a [u8]) -> Result<History<'a>, Refusal>
    requires { header_rows history.now ≡ 0 }
    ensures number { told result ≡ row 5 (whole_wrong history.now (setting_of history.now)) }
    ensures lent { IfOk result (λ h. h.bytes ≡ history.entry) }
{
    let front = header::setting_with(history, 0);
    if !lies(history.len() as u64, front) {
        return Err(Refusal::Whole);
    }
    let count = numbers::get::<8>(history, front.address as usize + 8);
    let setting = header::setting_with(history, count);
    if whole_wrong(history, setting) {
        return Err(Refusal::Whole);
    }
    Ok(History {
        bytes: history,
        setting,
    })
}

// Rows 1, 2, 3, 5.
pub fn judge<'a>(history: &'a [u8]) -> Result<History<'a>, Refusal>
    ensures number { told result ≡ history_rows history.now (setting_of history.now) }
    ensures lent { IfOk result (λ h. h.bytes ≡ history.entry) }
{
    header::header_rows(history)?;
    judge_whole(history)
}

// Rows 1 to 5: an order of the paper by itself, with row 4 between the others, so it is no case of the function above.
pub fn judge_both<'a>(original: &[u8], history: &'a [u8]) -> Result<History<'a>, Refusal>
    ensures number { told result ≡ both_rows original.now history.now (setting_of history.now) }
    ensures lent { IfOk result (λ h. h.bytes ≡ history.entry) }
{
    header::header_rows(history)?;
    let front = header::setting_with(history, 0);
    if original.len() as u64 != front.original {
        return Err(Refusal::Original);
    }
    judge_whole(history)
}

// ---- Locations

// Where a record stands, and its size.
#[derive(Clone, Copy)]
pub struct Location {
    pub address: u64,
    pub size: u64,
}

impl History<'_> {
    // The location of a revision from 1 on.
    pub fn location_of(self, k: u64) -> Location
        requires { (0 < k) × (k ≤ self.setting.count) }
        ensures { let s = self.entry.setting in (result.address ≡ address_at s.form self.entry.bytes.now (location_at s k)) × (result.size ≡ located_size self.entry.bytes.now (location_at s k)) }
    {
        let s = self.setting;
        let at = s.address as usize + FRONT + layout::LOCATION * (k - 1) as usize;
        let address = layout::get_address(s.form, self.bytes, at);
        let size = numbers::get::<8>(self.bytes, at + 8);
        Location { address, size }
    }
}

// Stores the location of a record.
fn put_location(history: &mut [u8], to: usize, form: Form, address: u64, size: u64)
    requires { (to + location_width ≤ length history.old) × (length history.old ≤ limit) }
    ensures { history.new ≡ laid history.old to (location_bytes form address size) }
{
    layout::put_address(form, history, to, address);
    numbers::put::<8>(history, to + 8, size);
    parts::put_sum(history, to, to + 16);
}

// ---- The whole history's bytes

// Stores an empty whole history.
pub fn put_empty(history: &mut [u8], form: Form, at: usize)
    requires { (at + whole_size 0 ≤ length history.old) × (length history.old ≤ limit) }
    ensures { history.new ≡ laid history.old at (whole_bytes form 0 []) }
{
    parts::put_start(history, at, form, SIGNATURE, 0);
    parts::put_sum(history, at, at + FRONT);
}

// Stores the new whole history behind a record: the locations that stand, and the record's behind them.
pub fn put_whole(history: &mut [u8], s: Setting, r: Record)
    requires { Extensible history.old s r }
    ensures { history.new ≡ laid history.old (setting_stored s r).address
        (whole_bytes s.form (s.count + 1) (locations_stored history.old s r)) }
{
    let form = s.form;
    let start = layout::end_of(form, r.address, r.size) as usize;
    parts::put_start(history, start, form, SIGNATURE, s.count + 1);
    let standing = layout::LOCATION * s.count as usize;
    runs::copy_run(history, s.address as usize + FRONT, start + FRONT, standing);
    let added = start + FRONT + standing;
    put_location(history, added, form, r.address, r.size);
    parts::put_sum(history, start, added + layout::LOCATION);
}
