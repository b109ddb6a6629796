// Names (SQLite Keywords). They do not regard the case of ASCII letters.
ghost use Rattle.std.specs.Prelude.{◌≡◌};
ghost use Rattle.eng_entry.specs.Names.{is_same_name};

/// Whether two names name one thing. Takes no memory.
pub fn is_same_name(a: &[u8], b: &[u8]) -> bool
    ensures { result ≡ is_same_name a.now b.now }
{
    a.eq_ignore_ascii_case(b)
}
