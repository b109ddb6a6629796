// The letters of ASCII in one case.
ghost use Rattle.std.specs.Prelude.{◌≡◌, IfOk, string_bytes};
ghost use Rattle.eng_text.specs.Texts.{folded};

use std::alloc::{AllocError, Global};

/// The text with the letters of ASCII in lower case, and all else as it was. Only memory can fail.
pub fn fold(alloc: Global, text: &str) -> Result<String, AllocError>
    ensures { IfOk result (λ made. string_bytes made ≡ folded text.now) }
{
    text.to_ascii_lowercase(alloc)
}
