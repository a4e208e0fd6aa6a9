// The bytes of a file, put one behind the other into an output that has room for all. Each function answers the place that it reached.
ghost use Rattle.std.specs.Prelude.{◌≡◌, ◌≤◌};
ghost use Rattle.put.specs.Put.{Puts};
ghost use Rattle.starts.specs.Answers.{cursor_of, row_of};
ghost use Rattle.cue_file.specs.Format.{bytes_of, version1, uris, trailer_bytes};
ghost use Rattle.cue_file.specs.Write as rule;
ghost use Rattle.cue_writer.specs.Inside.Measure.{largest};
ghost use Rattle.cue_writer.specs.Inside.Pass as inside;

use crate::measure;
use cue_file::{
    CLIP_WIDTH, COUNT, NANOSECONDS, RECORDS, SECONDS, URI_LENGTH, URIS, VERSION, VERSION_1,
};
use starts::{Row, Starts};
use tables::{layout, record};
use text::Span;

// A number in a field of so many bytes, high byte first: the last of its eight.
fn field<const WIDTH: usize>(out: &mut [u8], at: usize, value: u64) -> usize
    requires { WIDTH ≤ 8 }
    ensures { Puts out.old at (bytes_of WIDTH value) out.new result }
{
    put::copy(out, at, &value.to_be_bytes()[8 - WIDTH..])
}

// A clip's record: the seconds and nanoseconds of its start, and the length of its URI. At rate 1 the tick is the second.
fn clip(out: &mut [u8], at: usize, words: &[u64], row: Row) -> usize
    ensures { Puts out.old at (inside.row_bytes words.now (row_of row)) out.new result }
{
    let nanoseconds = row.start % layout::SECOND;
    let length = measure::uri_length(words, row.clip);
    let nanoseconds_at = field::<SECONDS>(out, at, row.tick);
    let length_at = field::<NANOSECONDS>(out, nanoseconds_at, nanoseconds);
    field::<URI_LENGTH>(out, length_at, length)
}

// One step for each clip. Over the words that the cursor was made with no step is refused, so that each gives a clip.
fn clips(out: &mut [u8], at: usize, words: &[u64], starts: Starts) -> usize
    ensures { Puts out.old at (inside.pass_bytes words.now (cursor_of starts) starts.clips) out.new result }
{
    let clips = starts.clips;
    let mut starts = starts;
    let mut to = at;
    for _k in 0..clips {
        let Ok(Some((row, after))) = starts.next(words) else {
            return to;
        };
        to = clip(out, to, words, row);
        starts = after;
    }
    to
}

// A clip's URI, as its bytes stand in the text.
fn uri(out: &mut [u8], at: usize, text: &[u8], words: &[u64], clip: usize) -> usize
    ensures { Puts out.old at (rule.cue_of text.now words.now clip).uri out.new result }
{
    let start = record::clip_word(words, clip, layout::URI_START);
    let end = record::clip_word(words, clip, layout::URI_END);
    let span = Span {
        start: start as usize,
        end: end as usize,
    };
    put::shown(out, at, text, span)
}

// The URIs of all clips, without a gap.
fn uris(out: &mut [u8], at: usize, text: &[u8], words: &[u64], clips: usize) -> usize
    ensures { Puts out.old at (uris (rule.cues_of text.now words.now clips)) out.new result }
{
    let mut to = at;
    for k in 0..clips {
        to = uri(out, to, text, words, k);
    }
    to
}

// The trailer of so many clips: the records stand from 0 on, the URIs behind them.
fn trailer(out: &mut [u8], at: usize, clips: usize) -> usize
    requires { clips ≤ largest }
    ensures { Puts out.old at (trailer_bytes version1 clips) out.new result }
{
    let uris = clips * CLIP_WIDTH;
    let uris_at = field::<RECORDS>(out, at, 0);
    let count_at = field::<URIS>(out, uris_at, uris as u64);
    let version_at = field::<COUNT>(out, count_at, clips as u64);
    field::<VERSION>(out, version_at, VERSION_1)
}

// The whole file, from the front of the output on.
pub(crate) fn lay(out: &mut [u8], text: &[u8], words: &[u64], starts: Starts) -> usize
    requires { starts.clips ≤ largest }
    ensures { Puts out.old 0 (inside.pass_file text.now words.now (cursor_of starts)) out.new result }
{
    let count = starts.clips;
    let uris_at = clips(out, 0, words, starts);
    let trailer_at = uris(out, uris_at, text, words, count);
    trailer(out, trailer_at, count)
}
