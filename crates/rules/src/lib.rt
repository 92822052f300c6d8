// The plain data that document 01 speaks of. What it means stands in specs/, one file a section of the paper. Those marked for C
// are handed over by value as they stand.
#![tactic(auto)]

ghost use Rattle.std.specs.Prelude.{◌≡◌};
ghost use Rattle.rules.specs.Refusals.{number_of};

// Why a call is refused: the rows of document 01, by their numbers.
#[derive(Clone, Copy, Debug, PartialEq, Eq)]
pub enum Refusal {
    Length = 1,
    Header = 2,
    HeaderSum = 3,
    Original = 4,
    Whole = 5,
    Revision = 6,
    Record = 7,
    RecordSum = 8,
    PageSum = 9,
    Outside = 10,
    Locked = 11,
    NotNewest = 12,
    Session = 13,
    TooMany = 14,
    NoRoom = 15,
    Texts = 16,
    Creation = 17,
    Full = 18,
    TooFar = 19,
    NotInOriginal = 20,
}

impl From<Refusal> for u64 {
    ghost from_gives = { λ refusal number. number ≡ number_of refusal };

    fn from(refusal: Refusal) -> u64 {
        refusal as u64
    }
}

// The form of a history: what its ends, widths and places go by.
#[derive(Clone, Copy)]
pub struct Form {
    pub page: u64,
}

// What a history says of itself: its form, the original's length, the whole history's address and size, how many revisions
// stand, whether the write lock is set and whether branching is allowed. It is read once and handed on.
#[derive(Clone, Copy)]
pub struct Setting {
    pub form: Form,
    pub original: u64,
    pub address: u64,
    pub size: u64,
    pub count: u64,
    pub lock: bool,
    pub branching: bool,
}

// What a revision's record says of itself: where it stands and its size, its revision and parent, the revision's logical
// size, the page size, how many index entries it has, and the sizes of name and comment.
#[derive(Clone, Copy)]
pub struct Record {
    pub address: u64,
    pub size: u64,
    pub revision: u64,
    pub parent: u64,
    pub logical: u64,
    pub page: u64,
    pub entries: u64,
    pub name: u64,
    pub comment: u64,
}

// An index entry: a page's logical and physical address, and its checksum.
#[derive(Clone, Copy)]
pub struct Entry {
    pub logical: u64,
    pub physical: u64,
    pub checksum: u64,
}

// Where an index stands in a history of a form, and how many entries it has.
#[derive(Clone, Copy)]
pub struct Index {
    pub form: Form,
    pub at: usize,
    pub entries: usize,
}

// A session's state: the committed end and the count that it was opened at, its parent, its logical size, and the n pages
// that it touched, in the order of first touch. Page i of them lies i page sizes after the end. The slots past n are unused: C takes it by
// value, so the pages are no slice.
#[repr(C)]
#[derive(Clone, Copy)]
pub struct State {
    pub end: u64,
    pub count: u64,
    pub parent: u64,
    pub size: u64,
    pub n: u64,
    pub pages: [u32; 256],
}

// ---- What C takes: a refusal by its number, a kind by a number, a buffer with its length beside it

// A page as a part of the original (source 0) or of the history (source 1). All zeros but the number where it is refused.
#[repr(C)]
#[derive(Clone, Copy, Default)]
pub struct Found {
    pub number: u64,
    pub source: u64,
    pub offset: u64,
    pub length: u64,
}

// The first fault of a history, with its revision and its entry; 0 where none is named.
#[repr(C)]
#[derive(Clone, Copy, Default)]
pub struct Checked {
    pub number: u64,
    pub revision: u64,
    pub entry: u64,
}

// A part of the history: where it starts, and its length.
#[repr(C)]
#[derive(Clone, Copy, Default)]
pub struct Part {
    pub offset: u64,
    pub length: u64,
}

// What a history tells its user of itself: the page size, the original's length, how many revisions stand, the committed end, and
// whether the lock is set and branching allowed. All zeros but the number where it is refused.
#[repr(C)]
#[derive(Clone, Copy, Default)]
pub struct SettingTold {
    pub number: u64,
    pub page: u64,
    pub original: u64,
    pub revisions: u64,
    pub end: u64,
    pub lock: bool,
    pub branching: bool,
}

// What a revision's record tells: the revision, its parent, its logical size, the user ID, how many index entries it has, and where its
// time, name and comment stand. Of the original only its length; all zeros but the number where it is refused.
#[repr(C)]
#[derive(Clone, Copy, Default)]
pub struct RecordTold {
    pub number: u64,
    pub revision: u64,
    pub parent: u64,
    pub logical: u64,
    pub user: u64,
    pub entries: u64,
    pub time: Part,
    pub name: Part,
    pub comment: Part,
}

// Where a revision's record stands in the history: of length 0 for revision 0 and where it is refused.
#[repr(C)]
#[derive(Clone, Copy, Default)]
pub struct Browsed {
    pub number: u64,
    pub offset: u64,
    pub length: u64,
}

// One step of browsing: kind 0 an entry, 1 the end, 7 refused. All zeros but the kind unless it is an entry.
#[repr(C)]
#[derive(Clone, Copy, Default)]
pub struct Step {
    pub kind: u64,
    pub logical: u64,
    pub physical: u64,
    pub page_sum: u64,
    pub entry_sum: u64,
}
