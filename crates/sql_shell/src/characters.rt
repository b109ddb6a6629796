// The characters of a script.
ghost use Rattle.std.specs.Prelude.{◌≡◌, ◌≤◌, None, Some, length, take, if◌then◌else◌};
ghost use Rattle.std.specs.Str.{IsUtf8};
ghost use Rattle.sql_meaning.specs.Parts.{bad_character, characters};
ghost use Rattle.sql_shell.specs.Cuts.{goes_on};

use sql_meaning::Ending;
use std::str;

/// The front of a script that is whole UTF-8, and the first byte of the character behind it that ends the script, if there is one.
#[derive(Clone, Copy)]
pub(crate) struct Characters<'a> {
    pub text: &'a str,
    pub bad: Option<usize>,
}

/// Whether bytes behind whole characters may go on to one: where they are at fault, or where the script ends there, they do not.
fn goes_on(ending: Ending, fault: Option<usize>) -> bool
    ensures { result ≡ goes_on ending fault }
{
    match ending {
        Ending::End => false,
        Ending::ReadFault | Ending::TooLong => fault.is_none(),
    }
}

/// The place, unless what stands there may go on to a character.
fn bad_at(place: usize, goes_on: bool) -> Option<usize>
    ensures { result ≡ (if goes_on then None else Some place) }
{
    if goes_on { None } else { Some(place) }
}

/// So many bytes, which are whole characters.
fn front(bytes: &[u8], len: usize) -> &str
    requires within { len ≤ length bytes.now }
    requires utf8 { IsUtf8 (take len bytes.now) }
    ensures { result.now ≡ take len bytes.now }
{
    match str::from_utf8(&bytes[..len]) {
        Ok(text) => text,
        // It never comes here.
        Err(_) => "",
    }
}

/// The characters of the bytes of a script that are looked at, with the script's ending.
pub(crate) fn whole_characters(bytes: &[u8], ending: Ending) -> Characters<'_>
    ensures text { result.text.now ≡ characters bytes.now }
    ensures bad { result.bad ≡ bad_character ending bytes.now }
{
    match str::from_utf8(bytes) {
        Ok(text) => Characters { text, bad: None },
        Err(error) => {
            let place = error.valid_up_to();
            Characters {
                text: front(bytes, place),
                bad: bad_at(place, goes_on(ending, error.error_len())),
            }
        }
    }
}
