// The operators LIKE and GLOB.
ghost use Rattle.std.specs.Prelude.{◌≡◌};
ghost use Rattle.std.specs.Str.{chars};
ghost use Rattle.eng_text.specs.Patterns.{is_like, is_glob};

use crate::search::matches;
use crate::syntax::Syntax;

/// Whether a text matches a pattern of LIKE (SQL Language Expressions, "The LIKE, GLOB, REGEXP, MATCH, and extract operators"):
/// `%` stands for any characters, also none, `_` for one, and any other character for itself, letters of ASCII in either case.
/// The character behind the escape stands for itself, and an escape at the end matches nothing. Takes no memory, and time as
/// the pattern's length times the text's.
pub fn like(pattern: &str, text: &str, escape: Option<char>) -> bool
    ensures { result ≡ is_like escape (chars pattern.now) (chars text.now) }
{
    matches(Syntax::Like(escape), pattern, text)
}

/// Whether a text matches a pattern of GLOB (SQL Language Expressions, "The LIKE, GLOB, REGEXP, MATCH, and extract operators"):
/// `*` stands for any characters, also none, `?` for one, a set in `[` and `]` for one that is in it (or, behind `[^`, that is
/// not), and any other character for itself. A set that is not closed matches nothing. Takes no memory, and time as the
/// pattern's length times the text's.
pub fn glob(pattern: &str, text: &str) -> bool
    ensures { result ≡ is_glob (chars pattern.now) (chars text.now) }
{
    matches(Syntax::Glob, pattern, text)
}
