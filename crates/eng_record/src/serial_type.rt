// Serial types.
ghost use Rattle.std.specs.Prelude.{◌≡◌, ◌+◌, ◌*◌, ◌<◌, ◌^◌, SomeIff};
ghost use Rattle.eng_value.specs.declared.value.Value.TheVariants.{Integer};
ghost use Rattle.eng_record.specs.declared.serial_type.SerialType.TheVariants as types;
ghost use Rattle.eng_record.specs.Spelling.{code as code_of, integer_len as len_of_integer, type_of, IsSpellableValue};
ghost use Rattle.eng_record.specs.Reading.{type_of_code};
ghost use Rattle.eng_record.specs.Columns.{body_len as len_of_body};

use eng_value::Value;

/// The kind of a value in a record and how many bytes its body takes (Database File Format, section 2.1).
#[derive(Clone, Copy, PartialEq, Eq)]
pub(crate) enum SerialType {
    Null,
    /// An integer in so many bytes: 1, 2, 3, 4, 6 or 8.
    Integer(usize),
    /// The integer 0, without a body.
    Zero,
    /// The integer 1, without a body.
    One,
    /// A blob of so many bytes.
    Blob(usize),
    /// A text of so many bytes.
    Text(usize),
}

impl SerialType {
    /// The type that a value has in a record.
    pub(crate) fn of(value: &Value) -> SerialType
        ensures kind { result ≡ type_of value.now }
        ensures spellable { code_of result < 2 ^ 64 → IsSpellableValue value.now }
    {
        match value {
            Value::Null => SerialType::Null,
            Value::Integer(n) => integer_type(*n),
            Value::Text(text) => SerialType::Text(text.as_str().len()),
            Value::Blob(blob) => SerialType::Blob(blob.as_slice().len()),
        }
    }

    /// The number of this type; none where it has more than 64 bits.
    pub(crate) fn code(self) -> Option<u64>
        ensures { SomeIff result (code_of self < 2 ^ 64) (code_of self) }
    {
        match self {
            SerialType::Null => Some(0),
            SerialType::Integer(len) => Some(integer_code(len)),
            SerialType::Zero => Some(8),
            SerialType::One => Some(9),
            SerialType::Blob(len) => code_with_len(12, len),
            SerialType::Text(len) => code_with_len(13, len),
        }
    }

    /// The type of this number; none for 7, 10 and 11.
    pub(crate) fn from_code(code: u64) -> Option<SerialType>
        ensures { result ≡ type_of_code code }
    {
        match code {
            0 => Some(SerialType::Null),
            1..=4 => Some(SerialType::Integer(code as usize)),
            5 => Some(SerialType::Integer(6)),
            6 => Some(SerialType::Integer(8)),
            8 => Some(SerialType::Zero),
            9 => Some(SerialType::One),
            7 | 10 | 11 => None,
            _ if code % 2 == 0 => Some(SerialType::Blob(((code - 12) / 2) as usize)),
            _ => Some(SerialType::Text(((code - 13) / 2) as usize)),
        }
    }

    /// How many bytes the body of a value of this type takes.
    pub(crate) fn body_len(self) -> usize
        ensures { result ≡ len_of_body self }
    {
        match self {
            SerialType::Null | SerialType::Zero | SerialType::One => 0,
            SerialType::Integer(len) | SerialType::Blob(len) | SerialType::Text(len) => len,
        }
    }
}

/// How many bytes an integer takes: none where its type says the number.
#[tactic(auto, unfolding(crate::specs::Spelling::integer_len))]
pub(crate) fn integer_len(n: i64) -> usize
    ensures { result ≡ len_of_integer n }
{
    match n {
        0 | 1 => 0,
        -0x80..=0x7f => 1,
        -0x8000..=0x7fff => 2,
        -0x80_0000..=0x7f_ffff => 3,
        -0x8000_0000..=0x7fff_ffff => 4,
        -0x8000_0000_0000..=0x7fff_ffff_ffff => 6,
        _ => 8,
    }
}

#[tactic(auto, unfolding(crate::specs::Spelling::integer_len))]
fn integer_type(n: i64) -> SerialType
    ensures kind { result ≡ type_of (Integer n) }
    ensures spellable { IsSpellableValue (Integer n) }
{
    match n {
        0 => SerialType::Zero,
        1 => SerialType::One,
        _ => SerialType::Integer(integer_len(n)),
    }
}

/// The number of the type of an integer in so many bytes.
fn integer_code(len: usize) -> u64
    ensures { result ≡ code_of (types.Integer len) }
{
    match len {
        0..=4 => len as u64,
        5 | 6 => 5,
        _ => 6,
    }
}

/// The number of the type of so many bytes, where that of none is `empty`.
fn code_with_len(empty: u64, len: usize) -> Option<u64>
    ensures { SomeIff result (empty + 2 * len < 2 ^ 64) (empty + 2 * len) }
{
    (len as u64).checked_mul(2)?.checked_add(empty)
}
