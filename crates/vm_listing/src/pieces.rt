// Texts put together of pieces.
ghost use Rattle.std.specs.Prelude.{◌≡◌, ◌+◌, ◌∷◌, [], IfOk, flat_map};
ghost use Rattle.std.specs.Fmt.{decimal};
ghost use Rattle.std.specs.List.{concat};
ghost use Rattle.vm_listing.specs.Listing.{gets, goes, goes_if, joins, or_goes, says};
ghost use Rattle.vm_listing.specs.Pieces.{register, registers};

use crate::numbers::at;
use eng_value::Text;
use itoa::Buffer;
use std::alloc::{AllocError, Global};

/// The text of pieces, one after another.
pub(crate) fn text_of(alloc: Global, pieces: &[&str]) -> Result<Text, AllocError>
    ensures { IfOk result (λ text. text ≡ flat_map (λ piece. piece.now) pieces.now) }
{
    Ok(Text::new(pieces.concat(alloc)?))
}

/// A word and a number.
pub(crate) fn numbered(alloc: Global, word: &str, number: u32) -> Result<Text, AllocError>
    ensures { IfOk result (λ text. text ≡ concat (word.now ∷ decimal number ∷ [])) }
{
    text_of(alloc, &[word, Buffer::new().format(number)])
}

/// A word and a text.
pub(crate) fn says(alloc: Global, word: &str, what: &Text) -> Result<Text, AllocError>
    ensures { IfOk result (λ text. text ≡ says word.now what.now) }
{
    text_of(alloc, &[word, what.as_str()])
}

/// A text between two words.
pub(crate) fn between(
    alloc: Global,
    left: &str,
    what: &Text,
    right: &str,
) -> Result<Text, AllocError>
    ensures { IfOk result (λ text. text ≡ joins left.now what.now right.now) }
{
    text_of(alloc, &[left, what.as_str(), right])
}

/// A number between two words.
pub(crate) fn number_between(
    alloc: Global,
    left: &str,
    number: u32,
    right: &str,
) -> Result<Text, AllocError>
    ensures { IfOk result (λ text. text ≡ joins left.now (decimal number) right.now) }
{
    text_of(alloc, &[left, Buffer::new().format(number), right])
}

pub(crate) fn register(alloc: Global, number: u32) -> Result<Text, AllocError>
    ensures { IfOk result (λ text. text ≡ register number) }
{
    text_of(alloc, &["r[", Buffer::new().format(number), "]"])
}

/// So many registers from the first on.
pub(crate) fn registers(alloc: Global, first: u32, count: u32) -> Result<Text, AllocError>
    ensures { IfOk result (λ text. text ≡ registers first count) }
{
    if count == 0 {
        return Text::from_str(alloc, "nothing");
    }
    if count == 1 {
        return register(alloc, first);
    }
    let last = u64::from(first) + u64::from(count) - 1;
    text_of(
        alloc,
        &[
            "r[",
            Buffer::new().format(first),
            "..",
            Buffer::new().format(last),
            "]",
        ],
    )
}

/// A register gets something.
pub(crate) fn gets(alloc: Global, to: u32, what: &str) -> Result<Text, AllocError>
    ensures { IfOk result (λ text. text ≡ gets to what.now) }
{
    let to = register(alloc, to)?;
    text_of(alloc, &[to.as_str(), "=", what])
}

/// Where a jump goes.
pub(crate) fn goes(alloc: Global, base: usize, target: usize) -> Result<Text, AllocError>
    ensures { IfOk result (λ text. text ≡ goes (base + target)) }
{
    let target = at(base, target)?;
    text_of(alloc, &["goto ", Buffer::new().format(target)])
}

/// A jump where a register is so.
pub(crate) fn goes_if(
    alloc: Global,
    before: &str,
    number: u32,
    behind: &str,
    base: usize,
    target: usize,
) -> Result<Text, AllocError>
    ensures { IfOk result (λ text. text ≡ goes_if before.now number behind.now (base + target)) }
{
    let target = at(base, target)?;
    let tested = register(alloc, number)?;
    text_of(
        alloc,
        &[
            "if ",
            before,
            tested.as_str(),
            behind,
            " goto ",
            Buffer::new().format(target),
        ],
    )
}

/// Something, and where the run goes on if there is none.
pub(crate) fn or_goes(
    alloc: Global,
    word: &str,
    what: &Text,
    base: usize,
    target: usize,
) -> Result<Text, AllocError>
    ensures { IfOk result (λ text. text ≡ or_goes word.now what.now (base + target)) }
{
    let target = at(base, target)?;
    text_of(
        alloc,
        &[word, what.as_str(), ", goto ", Buffer::new().format(target)],
    )
}
