// The beginnings of texts that numbers are made of. Each function tells how long the longest one of its form is.
ghost use Rattle.std.specs.Prelude.{◌≡◌, ◌≤◌, length, drop, Some, None, MatchOption};
ghost use Rattle.eng_number.specs.Forms.{digits, is_space, longest, one_of, is_digit, optional, trimmed, without_space, IsLongest};
ghost use Rattle.eng_number.specs.Numbers.{decimal_number, exponent, fraction, mantissa, pointed, sign, unsigned_number, whole_number};

fn is_space(byte: u8) -> bool
    ensures { result ≡ is_space byte }
{
    matches!(byte, b' ' | b'\t' | b'\n' | b'\x0c' | b'\r')
}

// How many bytes of white space the text begins with.
fn space_len(bytes: &[u8]) -> usize
    ensures within { result ≤ length bytes.now }
    ensures rest { drop result bytes.now ≡ without_space bytes.now }
{
    for (i, byte) in bytes.iter().enumerate() {
        if !is_space(*byte) {
            return i;
        }
    }
    bytes.len()
}

/// The text without the white space in front.
pub(crate) fn without_space(bytes: &[u8]) -> &[u8]
    ensures { result.now ≡ without_space bytes.now }
{
    &bytes[space_len(bytes)..]
}

/// The text without the white space at both ends.
pub(crate) fn trimmed(text: &[u8]) -> &[u8]
    ensures { result.now ≡ trimmed text.now }
{
    let text = without_space(text);
    let mut end = text.len();
    while end > 0 && is_space(text[end - 1]) {
        end -= 1;
    }
    &text[..end]
}

// What follows the first byte, if that is one of these.
fn after_one_of<'a>(bytes: &'a [u8], these: &[u8]) -> Option<&'a [u8]>
    ensures { MatchOption result (longest (one_of these.now) bytes.now ≡ None)
        (λ rest. IsLongest (one_of these.now) bytes.now (Some 1) × (rest.now ≡ drop 1 bytes.now)) }
{
    let (first, rest) = bytes.split_first()?;
    if these.contains(first) {
        Some(rest)
    } else {
        None
    }
}

/// The length of the sign that the text begins with, if any.
pub(crate) fn sign_len(bytes: &[u8]) -> usize
    ensures { IsLongest (optional sign) bytes.now (Some result) }
{
    match after_one_of(bytes, b"+-") {
        Some(_) => 1,
        None => 0,
    }
}

// How many digits the text begins with.
fn leading_digits(bytes: &[u8]) -> usize
    ensures { IsLongest (optional digits) bytes.now (Some result) }
{
    for (i, byte) in bytes.iter().enumerate() {
        if !byte.is_ascii_digit() {
            return i;
        }
    }
    bytes.len()
}

fn digits_len(bytes: &[u8]) -> Option<usize>
    ensures { IsLongest digits bytes.now result }
{
    let len = leading_digits(bytes);
    if len == 0 { None } else { Some(len) }
}

// A point and the digits behind it, if any.
fn fraction_len(bytes: &[u8]) -> usize
    ensures { IsLongest (optional fraction) bytes.now (Some result) }
{
    match after_one_of(bytes, b".") {
        Some(rest) => 1 + leading_digits(rest),
        None => 0,
    }
}

// A point and one digit or more.
fn pointed_len(bytes: &[u8]) -> Option<usize>
    ensures { IsLongest pointed bytes.now result }
{
    let rest = after_one_of(bytes, b".")?;
    Some(1 + digits_len(rest)?)
}

fn mantissa_len(bytes: &[u8]) -> Option<usize>
    ensures { IsLongest mantissa bytes.now result }
{
    match digits_len(bytes) {
        Some(whole) => Some(whole + fraction_len(&bytes[whole..])),
        None => pointed_len(bytes),
    }
}

fn exponent_len(bytes: &[u8]) -> Option<usize>
    ensures { IsLongest exponent bytes.now result }
{
    let rest = after_one_of(bytes, b"eE")?;
    Some(1 + whole_len(rest)?)
}

fn unsigned_len(bytes: &[u8]) -> Option<usize>
    ensures { IsLongest unsigned_number bytes.now result }
{
    let mantissa = mantissa_len(bytes)?;
    let exponent = exponent_len(&bytes[mantissa..]).unwrap_or(0);
    Some(mantissa + exponent)
}

/// The length of the longest beginning that is a sign and digits.
pub(crate) fn whole_len(bytes: &[u8]) -> Option<usize>
    ensures { IsLongest whole_number bytes.now result }
{
    let sign = sign_len(bytes);
    let digits = digits_len(&bytes[sign..])?;
    Some(sign + digits)
}

/// The length of the longest beginning that is a number.
pub(crate) fn number_len(bytes: &[u8]) -> Option<usize>
    ensures { IsLongest decimal_number bytes.now result }
{
    let sign = sign_len(bytes);
    let unsigned = unsigned_len(&bytes[sign..])?;
    Some(sign + unsigned)
}
