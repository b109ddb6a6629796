// The first bytes of a text, and what is behind them.
ghost use Rattle.std.specs.Prelude.{◌≡◌, ◌≤◌, [], ◌∷◌, drop, length, MatchOption};
ghost use Rattle.sql_lex.specs.Pieces.{begins_with};

/// The first byte of a text, and what is behind it.
pub(crate) fn first_byte(bytes: &[u8]) -> Option<(u8, &[u8])>
    ensures { MatchOption result (bytes.now ≡ []) (λ first. bytes.now ≡ first.0 ∷ first.1.now) }
{
    match bytes.split_first() {
        Some((first, rest)) => Some((*first, rest)),
        None => None,
    }
}

/// Whether a text begins with a byte.
pub(crate) fn begins_with(byte: u8, bytes: &[u8]) -> bool
    ensures { result ≡ begins_with byte bytes.now }
{
    match first_byte(bytes) {
        Some((first, _)) => first == byte,
        None => false,
    }
}

/// What is behind so many bytes.
pub(crate) fn behind(bytes: &[u8], width: usize) -> &[u8]
    requires { width ≤ length bytes.now }
    ensures { result.now ≡ drop width bytes.now }
{
    &bytes[width..]
}
