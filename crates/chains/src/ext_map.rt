// parser.rs, `extmap`: the list of a MAP, read with a memory of MAP's lists.
ghost use Rattle.std.specs.Prelude.{◌≡◌};
ghost use Rattle.attributes.specs.ExtMap as rule;
ghost use Rattle.attributes.specs.Answers.{map_res};
ghost use Rattle.chains.specs.Inside.Kept.{Remembering};

use crate::kept::PLACE_WORDS;
use crate::list;
use attributes::ext_map;
use attributes::ext_map::{MAP_WORDS, Map};
use text::IResult;

// How many words a memory of MAP's lists has, all zeros before the first.
pub const MAP_MEMORY: usize = PLACE_WORDS + 2 * MAP_WORDS;

// The memory is of this text: what earlier calls left in it, or zeros.
pub fn extmap(text: &[u8], at: usize, memory: &mut [u64]) -> IResult<Map>
    ensures { Remembering text.now memory.old memory.new (map_res result ≡ rule.extmap text.now at) }
{
    let mut held = [0; MAP_WORDS];
    let end = list::last_of_each(text, at, b"URIBYTERANGE", &[3, 9], &mut held, memory);
    ext_map::map_held(text, at, end, &held)
}
