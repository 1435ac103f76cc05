//! The changes that a commit message needs: its `Depends-On` footers.
ghost use Rattle.std.specs.Prelude.{◌≡◌, ◌≤◌, ◌<◌, ◌==◌, ◌⊎◌, ◌||◌, nat_lt, true, length, slice_index, option_map};
ghost use Rattle.std.specs.Prelude.{IfOk, IfErr, OnOk, IsErrOf};
ghost use Rattle.std.specs.List.{list_all, list_any};
ghost use Rattle.std.specs.Char.{is_ascii_digit};
ghost use Rattle.std.specs.Str.Parse.{digits_value};
ghost use Rattle.gate_types.specs.Needs.{without_end, without_blanks, after_footer, after_base, number_of};
ghost use Rattle.gate_types.specs.Needs.{named_change, with_number, needs};
ghost use Rattle.gate_types.specs.Limits.{most_needs};

use gate_types::deliveries::Refusal;
use gate_types::limits::MOST_NEEDS;
use gate_types::numbers::ChangeNo;
use std::alloc::Global;

/// What a footer begins with, in whatever case.
const FOOTER: &[u8; 11] = b"depends-on:";

/// Whether a byte is ignored at a line's end.
fn is_trailing(byte: u8) -> bool
    ensures { result ≡ (byte == 13 || byte == 32 || byte == 9) }
{
    byte == b'\r' || byte == b' ' || byte == b'\t'
}

/// Whether a byte is ignored before the base.
fn is_blank(byte: u8) -> bool
    ensures { result ≡ (byte == 32 || byte == 9) }
{
    byte == b' ' || byte == b'\t'
}

/// The line without CR, spaces and tabs at its end.
fn trimmed_end(line: &[u8]) -> &[u8]
    ensures { result.now ≡ without_end line.now }
{
    let mut end = line.len();
    while end > 0 && is_trailing(line[end - 1]) {
        end -= 1;
    }
    &line[..end]
}

/// The text without spaces and tabs before it.
fn trimmed_start(text: &[u8]) -> &[u8]
    ensures { result.now ≡ without_blanks text.now }
{
    let mut start = 0;
    while start < text.len() && is_blank(text[start]) {
        start += 1;
    }
    &text[start..]
}

/// What follows `Depends-On:`.
fn behind_footer(line: &[u8]) -> Option<&[u8]>
    ensures { option_map (λ rest. rest.now) result ≡ after_footer line.now }
{
    if line.len() < FOOTER.len() {
        return None;
    }
    let (front, rest) = line.split_at(FOOTER.len());
    if front.eq_ignore_ascii_case(FOOTER) {
        Some(rest)
    } else {
        None
    }
}

/// What follows the base.
fn behind_base<'t>(base: &[u8], text: &'t [u8]) -> Option<&'t [u8]>
    ensures { option_map (λ rest. rest.now) result ≡ after_base base.now text.now }
{
    if text.starts_with(base) {
        Some(&text[base.len()..])
    } else {
        None
    }
}

fn are_digits(bytes: &[u8]) -> bool
    ensures { result ≡ list_all is_ascii_digit bytes.now }
{
    bytes.iter().all(|byte| byte.is_ascii_digit())
}

/// The number of at most 9 digits.
fn value_of(digits: &[u8]) -> u64
    requires form { list_all is_ascii_digit digits.now ≡ true }
    requires few { length digits.now ≤ 9 }
    ensures { result ≡ digits_value 10 digits.now }
{
    let mut value = 0;
    for digit in digits {
        value = value * 10 + u64::from(*digit - b'0');
    }
    value
}

/// Whether the first digit is above 0.
fn begins_above_zero(digits: &[u8]) -> bool
    ensures { result ≡ nat_lt 48 (slice_index digits.now 0) }
{
    match digits.first() {
        Some(first) => *first > b'0',
        None => false,
    }
}

/// The change whose number the digits are.
fn change_of(digits: &[u8]) -> Option<ChangeNo>
    ensures { result ≡ number_of digits.now }
{
    if are_digits(digits) && digits.len() <= 9 && begins_above_zero(digits) {
        ChangeNo::new(value_of(digits))
    } else {
        None
    }
}

/// The change that a line names.
fn change_named(base: &str, line: &[u8]) -> Option<ChangeNo>
    ensures { result ≡ named_change base.now line.now }
{
    let rest = behind_footer(trimmed_end(line))?;
    let digits = behind_base(base.as_bytes(), trimmed_start(rest))?;
    change_of(digits)
}

fn has(found: &Vec<ChangeNo>, change: ChangeNo) -> bool
    ensures { result ≡ list_any (λ m. m == change) found.now.items }
{
    found.iter().any(|known| *known == change)
}

/// Adds a change, unless it is there.
fn keep(found: &mut Vec<ChangeNo>, change: ChangeNo) -> Result<(), Refusal>
    requires { length found.old.items ≤ most_needs }
    ensures ok { OnOk result (found.new.items ≡ with_number found.old.items change) }
    ensures few { OnOk result (length found.new.items ≤ most_needs) }
    ensures many { IsErrOf result Refusal.TooManyNeeds → most_needs < length (with_number found.old.items change) }
    ensures others { IfErr result (λ e. (e ≡ Refusal.TooManyNeeds) ⊎ (e ≡ Refusal.Unavailable)) }
{
    if !has(found, change) {
        if found.len() == MOST_NEEDS {
            return Err(Refusal::TooManyNeeds);
        }
        if found.push(change).is_err() {
            return Err(Refusal::Unavailable);
        }
    }
    Ok(())
}

/// The changes that a commit message needs, at most 32, each at its first place: those that its
/// `Depends-On:` lines name. (Zuul's documentation, "Cross-Project Dependencies"; the form of the
/// line is this gate's own.)
///
/// A line ends at LF; CR, spaces and tabs at its end are ignored. It counts if it is `Depends-On:`
/// in whatever ASCII case, any spaces and tabs, the base, 1 to 9 digits of which the first isn't 0,
/// and nothing more. Any other line is ignored.
///
/// # Errors
///
/// `TooManyNeeds` where the message names more than 32 different changes; `Unavailable` where
/// memory was refused.
pub fn needs(alloc: Global, base: &str, message: &str) -> Result<Vec<ChangeNo>, Refusal>
    ensures ok { IfOk result (λ found. found.items ≡ needs base.now message.now) }
    ensures few { OnOk result (length (needs base.now message.now) ≤ most_needs) }
    ensures many { IsErrOf result Refusal.TooManyNeeds → most_needs < length (needs base.now message.now) }
    ensures others { IfErr result (λ e. (e ≡ Refusal.TooManyNeeds) ⊎ (e ≡ Refusal.Unavailable)) }
{
    let mut found = Vec::new(alloc);
    for line in message.as_bytes().split(|byte| *byte == b'\n') {
        if let Some(change) = change_named(base, line) {
            keep(&mut found, change)?;
        }
    }
    Ok(found)
}
