// Times, names and comments: whether bytes have the form that the layout gives them.
#![tactic(auto)]

ghost use Rattle.std.specs.Prelude.{◌≡◌, ◌&&◌, ◌+◌, ◌-◌, ◌≤◌, ◌<◌, leb, length};
ghost use Rattle.rules.specs.Layout.{digits, two_digits, time_right, text_right, name_right, comment_right};

fn digits(bytes: &[u8]) -> bool
    ensures { result ≡ digits bytes.now }
{
    bytes.iter().all(u8::is_ascii_digit)
}

// What a digit counts. A byte below the digits counts nothing, so that every byte has an answer.
fn digit_value(x: u8) -> u64
    ensures { (result ≡ x - 0x30) × (result < 256) }
{
    u64::from(x.saturating_sub(b'0'))
}

fn two_digits(bytes: &[u8], at: usize) -> u64
    requires { at + 2 ≤ length bytes.now }
    ensures { result ≡ two_digits bytes.now at }
{
    10 * digit_value(bytes[at]) + digit_value(bytes[at + 1])
}

// Whether bytes are a time, YYYYMMDDThhmmssZ. Any day up to the 31st will do. The tests behind the length's are joined by `&`, which
// makes no branch: the answer is then the rule's own term.
#[tactic(auto, unfolding(rules::specs::Layout::time_right))]
pub fn time_right(time: &[u8]) -> bool
    ensures { result ≡ time_right time.now }
{
    time.len() == 16
        && digits(&time[0..8])
            & (time[8] == b'T')
            & digits(&time[9..15])
            & (time[15] == b'Z')
            & (1..=12).contains(&two_digits(time, 4))
            & (1..=31).contains(&two_digits(time, 6))
            & (two_digits(time, 9) <= 23)
            & (two_digits(time, 11) <= 59)
            & (two_digits(time, 13) <= 59)
}

// Whether bytes are printable and end in their only zero byte.
#[tactic(auto, unfolding(rules::specs::Layout::text_right))]
pub fn text_right(text: &[u8]) -> bool
    ensures { result ≡ text_right text.now }
{
    match text.split_last() {
        Some((last, printed)) => {
            printed.iter().all(|byte| (0x20..=0x7E).contains(byte)) && *last == 0
        }
        None => false,
    }
}

// Whether bytes are such a text, of at most so many bytes.
fn short<const MOST: usize>(text: &[u8]) -> bool
    ensures { result ≡ text_right text.now && leb (length text.now) MOST }
{
    text_right(text) & (text.len() <= MOST)
}

// Whether bytes are a name, with its closing zero.
pub fn name_right(name: &[u8]) -> bool
    ensures { result ≡ name_right name.now }
{
    short::<64>(name)
}

// Whether bytes are a comment, with its closing zero.
pub fn comment_right(comment: &[u8]) -> bool
    ensures { result ≡ comment_right comment.now }
{
    short::<256>(comment)
}
