// Where one text stands in another.
ghost use Rattle.std.specs.Prelude.{◌≡◌};
ghost use Rattle.eng_text.specs.Texts.{place_of};

use memchr::memmem;

/// The first place, in bytes from 0 on, from which on the needle stands; of an empty needle it is 0. Takes no memory.
#[tactic(auto, using(crate::proofs::FindLaws::found_place))]
pub fn find(hay: &[u8], needle: &[u8]) -> Option<usize>
    ensures { result ≡ place_of needle.now hay.now }
{
    memmem::find(hay, needle)
}
