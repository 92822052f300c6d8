// Browsing: where the record of a revision stands, and its index entries, one at a time.
#![tactic(auto)]

ghost use Rattle.std.specs.Prelude.{◌≡◌, ◌+◌, ◌≤◌, length};
ghost use Rattle.rules.specs.Calls.{browse, browse_step, browse_next};
ghost use Rattle.browsing.specs.Lent.{PartAt};
ghost use Rattle.browsing.specs.Answers.{browsed, stepped};

use rules::{Entry, Form, Part, Refusal};

// ---- The record of a revision

// Where the record of a revision stands.
pub fn browse_place(history: &[u8], revision: u64) -> Result<Part, Refusal>
    ensures { browsed result ≡ browse history.now revision }
{
    let record = revisions::judge_alone(history, revision)?.record;
    Ok(Part {
        offset: record.address,
        length: record.size,
    })
}

// The bytes that lie there, as a part of the history. Whoever has judged the revision takes them without judging it again.
pub fn part_of<'a>(history: &'a [u8], place: Part) -> &'a [u8]
    requires { place.offset + place.length ≤ length history.now }
    ensures { PartAt history.entry place.offset place.length result }
{
    let from = place.offset as usize;
    let to = from + place.length as usize;
    &history[from..to]
}

// The record's bytes as a part of the history, and where that part lies; the empty part at its start where there is no record.
pub fn record_part<'a>(history: &'a [u8], revision: u64) -> &'a [u8]
    ensures { PartAt history.entry (browse history.now revision).offset (browse history.now revision).length result }
{
    match browse_place(history, revision) {
        Ok(place) => part_of(history, place),
        Err(_) => &history[..0],
    }
}

// ---- Its entries

// What stands at a place: an entry with its own checksum, the end, or nothing, since the bytes are no record.
#[derive(Clone, Copy)]
pub enum Stands {
    Entry { entry: Entry, sum: u64 },
    End,
    Refused,
}

// What stands at a place of the lent bytes, which may be any bytes, of any page size. Their entry count may be any number, so it is
// held to how many entries there is room for, and nothing is multiplied before that.
pub fn step_at(bytes: &[u8], place: u64) -> Stands
    ensures { stepped result ≡ browse_step bytes.now place }
{
    let form = Form { page: 0 };
    let room = bytes.len();
    if room == 0 {
        return Stands::End;
    }
    let bare = layout::bare_width(form);
    if room < bare {
        return Stands::Refused;
    }
    let entries = numbers::get::<8>(bytes, layout::entry_count_at(form));
    let width = layout::entry_width(form);
    let most = ((room - bare) / width) as u64;
    if most < entries {
        return Stands::Refused;
    }
    if entries <= place {
        return Stands::End;
    }
    let front = layout::front_width(form);
    let at = front + layout::entries_width(form, place as usize);
    let entry = index::entry_at(form, bytes, at);
    let sum = numbers::get::<4>(bytes, at + layout::entry_sum_at(form));
    Stands::Entry { entry, sum }
}

// The place behind an entry; at the end and where it is refused the place stays.
pub fn next_at(bytes: &[u8], place: u64) -> u64
    ensures { result ≡ browse_next bytes.now place }
{
    match step_at(bytes, place) {
        Stands::Entry { .. } => place + 1,
        Stands::End | Stands::Refused => place,
    }
}
