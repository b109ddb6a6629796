// Varints (Database File Format, section 1.6), and the length of a header, which counts the bytes of its own varint.
ghost use Rattle.std.specs.Prelude.{◌≡◌, ◌≢◌, ◌++◌, ◌<◌, ◌≤◌, ◌^◌, length, IfErr, IfOk, OnOk, SomeIff};
ghost use Rattle.eng_record.specs.declared.record_error.RecordErr.TheVariants.{Mem};
ghost use Rattle.eng_record.specs.Spelling.{header_len as len_of_header, leading, varint, varint_len as len_of_varint};
ghost use Rattle.eng_record.specs.Reading.{Gives, number_at as number_in, varint_at as varint_in};

use crate::RecordErr;
use std::alloc::AllocError;

/// How many bytes a number needs.
#[tactic(auto, unfolding(crate::specs::Spelling::varint_len))]
pub(crate) fn varint_len(n: u64) -> usize
    ensures { result ≡ len_of_varint n }
{
    match n {
        0..=0x7f => 1,
        0x80..=0x3fff => 2,
        0x4000..=0x1f_ffff => 3,
        0x20_0000..=0xfff_ffff => 4,
        0x1000_0000..=0x7_ffff_ffff => 5,
        0x8_0000_0000..=0x3ff_ffff_ffff => 6,
        0x400_0000_0000..=0x1_ffff_ffff_ffff => 7,
        0x2_0000_0000_0000..=0xff_ffff_ffff_ffff => 8,
        _ => 9,
    }
}

/// The length of a header whose types take so many bytes; none where it has more than 64 bits.
pub(crate) fn header_len(types_len: u64) -> Option<u64>
    ensures { SomeIff result (len_of_header types_len < 2 ^ 64) (len_of_header types_len) }
{
    for own_len in 1..9 {
        let header_len = types_len.checked_add(own_len)?;
        if varint_len(header_len) as u64 <= own_len {
            return Some(header_len);
        }
    }
    types_len.checked_add(9)
}

/// Writes a number at the end.
pub(crate) fn push_varint(out: &mut Vec<u8>, n: u64) -> Result<(), AllocError>
    ensures { OnOk result (out.new.items ≡ out.old.items ++ varint n) }
{
    if n >= 1 << 56 {
        push_leading(out, 8, n / 256)?;
        out.push((n % 256) as u8)?;
    } else {
        push_leading(out, varint_len(n) - 1, n / 128)?;
        out.push((n % 128) as u8)?;
    }
    Ok(())
}

/// Writes so many bytes of a varint, behind each of which another byte follows.
fn push_leading(out: &mut Vec<u8>, count: usize, n: u64) -> Result<(), AllocError>
    requires few { count ≤ 8 }
    requires fits { n < 128 ^ count }
    ensures { OnOk result (out.new.items ≡ out.old.items ++ leading count n) }
{
    for written in 0..count {
        let place = count - 1 - written;
        out.push(128 + ((n >> (7 * place)) % 128) as u8)?;
    }
    Ok(())
}

/// The number at the front, which takes no more bytes than it needs, and the bytes behind it. A byte that none follows needs no look
/// at how many there are.
#[inline(always)]
pub(crate) fn varint_at(bytes: &[u8]) -> Result<(u64, &[u8]), RecordErr>
    ensures exact { Gives (λ x. (x.0, x.1.now)) result (varint_in bytes.now) }
    ensures shorter { IfOk result (λ x. length x.1.now < length bytes.now) }
    ensures no_memory { IfErr result (λ e. e ≢ Mem) }
{
    match bytes {
        [byte, rest @ ..] if *byte < 128 => Ok((u64::from(*byte), rest)),
        _ => varint_of_several(bytes),
    }
}

/// The same for a number of any length.
#[inline(never)]
#[tactic(auto, unfolding(crate::specs::Reading::varint_at))]
fn varint_of_several(bytes: &[u8]) -> Result<(u64, &[u8]), RecordErr>
    ensures exact { Gives (λ x. (x.0, x.1.now)) result (varint_in bytes.now) }
    ensures shorter { IfOk result (λ x. length x.1.now < length bytes.now) }
    ensures no_memory { IfErr result (λ e. e ≢ Mem) }
{
    let (n, rest) = number_at(bytes)?;
    if bytes.len() - rest.len() != varint_len(n) {
        return Err(RecordErr::NotShortest);
    }
    Ok((n, rest))
}

/// The number at the front, however it is written, and the bytes behind it.
#[inline]
#[tactic(auto, unfolding(crate::specs::Reading::number_at))]
pub(crate) fn number_at(bytes: &[u8]) -> Result<(u64, &[u8]), RecordErr>
    ensures exact { Gives (λ x. (x.0, x.1.now)) result (number_in bytes.now) }
    ensures shorter { IfOk result (λ x. length x.1.now < length bytes.now) }
    ensures no_memory { IfErr result (λ e. e ≢ Mem) }
{
    match bytes {
        [byte, rest @ ..] if *byte < 128 => Ok((u64::from(*byte), rest)),
        _ => number_of_several(bytes),
    }
}

/// The same for a number of any length.
#[inline(never)]
fn number_of_several(bytes: &[u8]) -> Result<(u64, &[u8]), RecordErr>
    ensures exact { Gives (λ x. (x.0, x.1.now)) result (number_in bytes.now) }
    ensures shorter { IfOk result (λ x. length x.1.now < length bytes.now) }
    ensures no_memory { IfErr result (λ e. e ≢ Mem) }
{
    let mut high: u64 = 0;
    let mut rest = bytes;
    for _ in 0..8_u32 {
        match rest {
            [] => return Err(RecordErr::Short),
            [byte, after @ ..] if *byte < 128 => return Ok((128 * high + u64::from(*byte), after)),
            [byte, after @ ..] => {
                high = 128 * high + u64::from(*byte - 128);
                rest = after;
            }
        }
    }
    match rest {
        [] => Err(RecordErr::Short),
        [byte, after @ ..] => Ok((256 * high + u64::from(*byte), after)),
    }
}
