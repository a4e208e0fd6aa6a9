// What is weighed of a table before the first byte is put: whether the fields hold their numbers, and the file's size.
ghost use Rattle.std.specs.Prelude.{◌≡◌, true};
ghost use Rattle.cue_writer.specs.Inside.Measure as inside;

use cue_file::{CLIP_WIDTH, LARGEST_COUNT, LARGEST_URI, TRAILER_WIDTH};
use tables::{layout, record};

// How many bytes a clip's URI has.
pub(crate) fn uri_length(words: &[u64], clip: usize) -> u64
    ensures { result ≡ inside.uri_length words.now clip }
{
    let start = record::clip_word(words, clip, layout::URI_START);
    let end = record::clip_word(words, clip, layout::URI_END);
    if end < start {
        return 0;
    }
    end - start
}

// 33: the count's field and the fields of the URI lengths hold theirs. What the clock has let pass the other fields hold.
pub(crate) fn fields_hold(words: &[u64], clips: usize) -> bool
    ensures { result ≡ inside.fields_hold words.now clips }
{
    if LARGEST_COUNT < clips {
        return false;
    }
    for k in 0..clips {
        if LARGEST_URI < uri_length(words, k) {
            return false;
        }
    }
    true
}

// How many bytes the file has.
pub(crate) fn size(words: &[u64], clips: usize) -> usize
    requires { inside.fields_hold words.now clips ≡ true }
    ensures { result ≡ inside.size words.now clips }
{
    let mut sum = clips * CLIP_WIDTH + TRAILER_WIDTH;
    for k in 0..clips {
        sum += uri_length(words, k) as usize;
    }
    sum
}
