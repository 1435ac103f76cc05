//! Decimal numbers in a request.
ghost use Rattle.std.specs.Prelude.{◌≡◌, ◌≤◌};
ghost use Rattle.gate_http.specs.Digits.{number_within, number_up_to};

/// The number that decimal digits write, or one above the most where it is higher. None where
/// there is anything else, or nothing.
pub(crate) fn number_of(text: &[u8], most: usize) -> Option<usize>
    requires { most ≤ 10000000000000000 }
    ensures { result ≡ number_within most text.now }
{
    if text.is_empty() {
        return None;
    }
    let mut n = 0;
    for digit in text {
        if !digit.is_ascii_digit() {
            return None;
        }
        n = (n * 10 + (*digit - b'0') as usize).min(most + 1);
    }
    Some(n)
}

/// The number from 1 up to the most that decimal digits write without a leading zero.
pub(crate) fn number_up_to(text: &[u8], most: usize) -> Option<usize>
    requires { most ≤ 10000000000000000 }
    ensures { result ≡ number_up_to most text.now }
{
    if text.starts_with(b"0") {
        return None;
    }
    match number_of(text, most) {
        Some(number) if 1 <= number && number <= most => Some(number),
        _ => None,
    }
}
