// A browsing reader keeps the lent record, its place in it and the refusal of its browsing. The functions over it
// are few and thin: each takes the struct apart and leaves the work to `browsing`.
#![tactic(auto)]

ghost use Rattle.std.specs.Prelude.{◌≡◌, None};
ghost use Rattle.rules.specs.Calls.{browse, browse_step, browse_next};
ghost use Rattle.rules.specs.Refusals.{number_kept};
ghost use Rattle.browsing.specs.Lent.{PartAt};
ghost use Rattle.browsing.specs.Answers.{stepped};

use browsing::Stands;
use rules::Refusal;

// Nothing was refused where it keeps no refusal.
#[derive(Clone, Copy)]
pub struct Reader<'a> {
    pub bytes: &'a [u8],
    pub place: u64,
    pub refusal: Option<Refusal>,
}

impl<'a> Reader<'a> {
    // A reader over lent bytes, whatever they are, at their first entry.
    pub fn new(bytes: &'a [u8]) -> Reader<'a>
        ensures { (result.bytes ≡ bytes.entry) × (result.place ≡ 0) × (result.refusal ≡ None) }
    {
        Reader {
            bytes,
            place: 0,
            refusal: None,
        }
    }

    // What stands at its place: an entry, the end, or that the bytes are refused.
    pub fn step(self) -> Stands
        ensures { stepped result ≡ browse_step self.entry.bytes.now self.entry.place }
    {
        browsing::step_at(self.bytes, self.place)
    }

    // The reader after that step, over the same bytes and with the same refusal.
    pub fn next(self) -> Reader<'a>
        ensures { (result.bytes ≡ self.entry.bytes) × (result.place ≡ browse_next self.entry.bytes.now self.entry.place) × (result.refusal ≡ self.entry.refusal) }
    {
        let place = browsing::next_at(self.bytes, self.place);
        Reader {
            bytes: self.bytes,
            place,
            refusal: self.refusal,
        }
    }
}

// The reader of a revision, which is judged once: over its record's part of the history, which is empty for revision 0 and where it
// is refused.
pub fn browse<'a>(history: &'a [u8], revision: u64) -> Reader<'a>
    ensures { (PartAt history.entry (browse history.now revision).offset (browse history.now revision).length result.bytes) × (result.place ≡ 0) × (number_kept result.refusal ≡ (browse history.now revision).number) }
{
    match browsing::browse_place(history, revision) {
        Ok(place) => Reader::new(browsing::part_of(history, place)),
        Err(refusal) => Reader {
            refusal: Some(refusal),
            ..Reader::new(&history[..0])
        },
    }
}
