// The list's text: a line for the history and one for each of its records, or the first fault.
#![tactic(auto)]

ghost use Rattle.std.specs.Prelude.{◌≡◌, List, ◌++◌, ℕ, ◌+◌, ◌≤◌, length, IfOk};
ghost use Rattle.rules.specs.Layout.{name_limit};
ghost use Rattle.rules.specs.Calls.{records_rows};
ghost use Rattle.rules.specs.Refusals.{told};
ghost use Rattle.rules.specs.Listing.{decimal, yes_no, space, newline, refused_word, setting_line, record_line, record_lines, list_limit, list_rows, list};
ghost use Rattle.listing.specs.Written.{Written, Shown, Counted, digits_most, flag_most, setting_most, record_most, refused_most, text_most, listed, fitted};

use rules::{Form, Record, Refusal, Setting};
use whole::History;

// For the list program a longer history than this counts as row 1.
pub const LIST_LIMIT: usize = 65536;

// A buffer of so many bytes holds every text: a line of at most 108 for the history, and 1,024 of at most 165 for the records.
pub const LONGEST: usize = 169068;

// ---- Numbers

// How many digits a number has; 0 has one, as 1 has.
fn decimal_length(n: u64) -> usize
    ensures { (result ≡ length (decimal n)) × (result ≤ digits_most) }
{
    n.max(1).ilog10() as usize + 1
}

// Lays a number's digits over the bytes from an address on, the last digit first, and answers where they end.
// By hand: to print by the library takes three times as long, and a `for` over the places is unrolled, which few digits do not pay for.
fn put_decimal(out: &mut [u8], at: usize, n: u64) -> usize
    requires { at + length (decimal n) ≤ length out.old }
    ensures { Written out.old at (decimal n) out.new result }
{
    let end = at + decimal_length(n);
    let mut place = end;
    let mut left = n;
    while 10 <= left {
        place -= 1;
        out[place] = b'0' + (left % 10) as u8;
        left /= 10;
    }
    place -= 1;
    out[place] = b'0' + left as u8;
    end
}

// ---- Words

fn word_of(flag: bool) -> &'static [u8]
    ensures { result.now ≡ yes_no flag }
{
    if flag { b"yes" } else { b"no" }
}

// Lays a word and a text behind it over the bytes from an address on, and answers where they end.
fn put_text(out: &mut [u8], at: usize, word: &[u8], text: &[u8]) -> usize
    requires { at + length word.now + length text.now ≤ length out.old }
    ensures { Written out.old at (word.now ++ text.now) out.new result }
{
    let next = at + word.len();
    runs::put_run(out, at, word);
    runs::put_run(out, next, text);
    next + text.len()
}

// The same with a number behind the word.
fn put_number(out: &mut [u8], at: usize, word: &[u8], n: u64) -> usize
    requires { at + length word.now + length (decimal n) ≤ length out.old }
    ensures { Written out.old at (word.now ++ decimal n) out.new result }
{
    let next = at + word.len();
    runs::put_run(out, at, word);
    put_decimal(out, next, n)
}

// The same with a flag behind the word.
fn put_flag(out: &mut [u8], at: usize, word: &[u8], flag: bool) -> usize
    requires { at + length word.now + length (yes_no flag) ≤ length out.old }
    ensures { Written out.old at (word.now ++ yes_no flag) out.new result }
{
    put_text(out, at, word, word_of(flag))
}

fn flag_length(flag: bool) -> usize
    ensures { (result ≡ length (yes_no flag)) × (result ≤ flag_most) }
{
    word_of(flag).len()
}

// ---- The history's line

// The words, the spaces about them and the newline are 42 bytes.
#[tactic(auto, using(crate::proofs::Lines::setting_long))]
fn setting_length(s: Setting) -> usize
    ensures { (result ≡ length (setting_line s)) × (result ≤ setting_most) }
{
    42 + decimal_length(s.form.page)
        + decimal_length(s.original)
        + decimal_length(s.count)
        + flag_length(s.lock)
        + flag_length(s.branching)
}

#[tactic(auto, using(crate::proofs::Lines::setting_long))]
fn put_setting_line(out: &mut [u8], at: usize, s: Setting) -> usize
    requires { at + length (setting_line s) ≤ length out.old }
    ensures { Written out.old at (setting_line s) out.new result }
{
    let page = put_number(out, at, b"pages ", s.form.page);
    let original = put_number(out, page, b" original ", s.original);
    let count = put_number(out, original, b" revisions ", s.count);
    let lock = put_flag(out, count, b" lock ", s.lock);
    let branch = put_flag(out, lock, b" branch ", s.branching);
    runs::put_run(out, branch, b"\n");
    branch + 1
}

// ---- A record's line

// How long the line is, in every history that the record's time and name lie in. Five spaces, the time and the newline are 22
// bytes, and the name is shown without its closing zero.
#[tactic(auto, using(crate::proofs::Lines::record_long))]
fn record_length(r: Record) -> usize
    requires { (1 ≤ r.name) × (r.name ≤ name_limit) }
    ensures { ((history : List ℕ) (f : Form) → Shown history f r → result ≡ length (record_line history f r)) × (result ≤ record_most) }
{
    21 + r.name as usize
        + decimal_length(r.revision)
        + decimal_length(r.parent)
        + decimal_length(r.logical)
        + decimal_length(r.entries)
}

// A word, a number, a space and a second number.
fn put_numbers(out: &mut [u8], at: usize, word: &[u8], first: u64, second: u64) -> usize
    requires { at + length word.now + length (decimal first) + 1 + length (decimal second) ≤ length out.old }
    ensures { Written out.old at (word.now ++ decimal first ++ space ++ decimal second) out.new result }
{
    let next = put_number(out, at, word, first);
    put_number(out, next, b" ", second)
}

fn put_record_line(out: &mut [u8], at: usize, history: &[u8], form: Form, r: Record) -> usize
    requires { (at + length (record_line history.now form r) ≤ length out.old) × Shown history.now form r }
    ensures { Written out.old at (record_line history.now form r) out.new result }
{
    let time = records::time_at(r);
    let time_end = time + 16;
    let name = records::name_at(form, r);
    let name_end = name + (r.name as usize - 1);
    let next = put_numbers(out, at, b"", r.revision, r.parent);
    let next = put_text(out, next, b" ", &history[time..time_end]);
    let next = put_numbers(out, next, b" ", r.logical, r.entries);
    let next = put_text(out, next, b" ", &history[name..name_end]);
    runs::put_run(out, next, b"\n");
    next + 1
}

// ---- Rows

// Rows 7 and 8, record after record, and how long the records' lines are: they are counted on the way, so that no record is judged for
// that alone.
fn judge_records(history: History<'_>) -> Result<usize, Refusal>
    ensures number { let s = history.entry.setting in told result ≡ records_rows history.entry.bytes.now s 1 s.count }
    ensures counted { IfOk result (λ n. Counted history.entry.bytes.now history.entry.setting n) }
{
    let mut length: usize = 0;
    for k in 1..=history.setting.count {
        let record = records::judge(history, k)?;
        length += record_length(record);
    }
    Ok(length)
}

// A history that every row of the list has passed, and how long its records' lines are.
#[derive(Clone, Copy)]
struct Listable<'a> {
    history: History<'a>,
    records: usize,
    ghost clear: { records_rows history.bytes.now history.setting 1 history.setting.count ≡ 0 },
    ghost counted: { Counted history.bytes.now history.setting records },
}

// The rows of the list: a history of more than so many bytes is refused as too long.
fn judge<'a>(history: &'a [u8], most: usize) -> Result<Listable<'a>, Refusal>
    ensures number { told result ≡ list_rows most history.now }
    ensures lent { IfOk result (λ l. l.history.bytes ≡ history.entry) }
{
    if most < history.len() {
        return Err(Refusal::Length);
    }
    let history = whole::judge(history)?;
    let records = judge_records(history)?;
    Ok(Listable { history, records })
}

// ---- The records' lines

// Each record is read once more, since there is no room to keep all of them until the text is known to fit.
fn put_record_lines(out: &mut [u8], at: usize, lines: Listable<'_>) -> usize
    requires { let h = lines.history in at + length (record_lines h.bytes.now h.setting 1 h.setting.count) ≤ length out.old }
    ensures { let h = lines.entry.history in Written out.old at (record_lines h.bytes.now h.setting 1 h.setting.count) out.new result }
{
    let history = lines.history;
    let form = history.setting.form;
    let mut next = at;
    for k in 1..=history.setting.count {
        let record = records::passed(history, k);
        next = put_record_line(out, next, history.bytes, form, record);
    }
    next
}

// ---- The whole text

// Writes a refusal where there is room for it, and answers its length.
fn list_refused(out: &mut [u8], number: u64) -> usize
    ensures text { listed result out.new ≡ fitted out.old (refused_word ++ decimal number ++ newline) }
    ensures short { result ≤ refused_most }
{
    let length = 9 + decimal_length(number);
    if length <= out.len() {
        let next = put_number(out, 0, b"refused ", number);
        runs::put_run(out, next, b"\n");
    }
    length
}

// Writes the lines where there is room for all of them, and answers their length.
fn list_passed(lines: Listable<'_>, out: &mut [u8]) -> usize
    ensures text { let h = lines.entry.history in listed result out.new ≡ fitted out.old (setting_line h.setting ++ record_lines h.bytes.now h.setting 1 h.setting.count) }
    ensures short { result ≤ text_most }
{
    let s = lines.history.setting;
    let total = setting_length(s) + lines.records;
    if total <= out.len() {
        let next = put_setting_line(out, 0, s);
        put_record_lines(out, next, lines);
    }
    total
}

// Lays the list's text over the start of a buffer, where there is room for all of it. The answer is the text's length either way. A
// history of more than so many bytes is refused as too long.
pub fn list(history: &[u8], out: &mut [u8], most: usize) -> usize
    ensures text { listed result out.new ≡ list most history.now out.old }
    ensures short { result ≤ text_most }
{
    match judge(history, most) {
        Ok(lines) => list_passed(lines, out),
        Err(refusal) => list_refused(out, u64::from(refusal)),
    }
}

// The list program's text: the same of at most 65,536 bytes.
pub fn list_program(history: &[u8], out: &mut [u8]) -> usize
    ensures text { listed result out.new ≡ list list_limit history.now out.old }
    ensures short { result ≤ text_most }
{
    list(history, out, LIST_LIMIT)
}
