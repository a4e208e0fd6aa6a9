// Clips with no map, no discontinuity and no unknown tags: their lines, straight from the words of a table that holds them whole.
ghost use Rattle.std.specs.Prelude.{◌≡◌, ◌&&◌, ◌++◌, ◌+◌, ◌*◌, ◌≤◌, ◌<◌, eqb, ltb, length};
ghost use Rattle.text.specs.Nom.{span};
ghost use Rattle.text.specs.Answers.{span_of};
ghost use Rattle.tables.specs.Layout as layout;
ghost use Rattle.tables.specs.Table.{clip_word};
ghost use Rattle.records.specs.Records.{range_at};
ghost use Rattle.put.specs.Put.{Puts};
ghost use Rattle.playlist.specs.Lines.{byte_range_line, line_if, lines_text};
ghost use Rattle.cliplines.specs.Inside.Plain.{Holds, is_plain, plain_text};

use crate::lines;
use leaves::util::ByteRange;
use tables::{layout, record};
use text::Span;

// The word at a place of clip k, which the table holds whole.
// (Each crate has its own: a public function may ask nothing of its callers, and the public one tests its index.)
fn held_word(clips: &[u64], k: usize, place: usize) -> u64
    requires holds { Holds clips.now k }
    requires place_lt_clip_words { place < layout.clip_words }
    ensures { result ≡ clip_word clips.now k place }
{
    clips[k * layout::CLIP_WORDS + place]
}

// The span whose words stand at two places of clip k.
fn held_span(clips: &[u64], k: usize, start: usize, end: usize) -> Span
    requires holds { Holds clips.now k }
    requires start_lt_clip_words { start < layout.clip_words }
    requires end_lt_clip_words { end < layout.clip_words }
    ensures { span_of result ≡ span (clip_word clips.now k start) (clip_word clips.now k end) }
{
    let from = held_word(clips, k, start);
    let to = held_word(clips, k, end);
    Span {
        start: from as usize,
        end: to as usize,
    }
}

// The flags of a range are the lowest.
pub(crate) fn is_plain(clips: &[u64], k: usize) -> bool
    requires { Holds clips.now k }
    ensures { result ≡ is_plain clips.now k }
{
    let flags = held_word(clips, k, layout::FLAGS);
    let count = held_word(clips, k, layout::TAG_COUNT);
    (flags < layout::HAS_DISCONTINUITY) & (count == 0)
}

fn range_lines(out: &mut [u8], at: usize, flags: u64, length: u64, offset: u64) -> usize
    ensures { Puts out.old at (lines_text (line_if byte_range_line (range_at flags layout.has_range layout.has_range_offset length offset))) out.new result }
{
    if !record::has_flag(flags, layout::HAS_RANGE) {
        return at;
    }
    let offset = record::has_flag(flags, layout::HAS_RANGE_OFFSET).then_some(offset);
    lines::range_line(out, at, ByteRange { length, offset })
}

pub(crate) fn plain_clip(out: &mut [u8], text: &[u8], clips: &[u64], k: usize) -> usize
    requires { Holds clips.now k }
    ensures { Puts out.old 0 (plain_text text.now clips.now k) out.new result }
{
    let flags = held_word(clips, k, layout::FLAGS);
    let length = held_word(clips, k, layout::RANGE_LENGTH);
    let offset = held_word(clips, k, layout::RANGE_OFFSET);
    let ns = held_word(clips, k, layout::LENGTH);
    let title = held_span(clips, k, layout::TITLE_START, layout::TITLE_END);
    let uri = held_span(clips, k, layout::URI_START, layout::URI_END);
    let extinf_at = range_lines(out, 0, flags, length, offset);
    let uri_at = lines::extinf_shown(out, extinf_at, text, ns, title);
    lines::uri_line(out, uri_at, text, uri)
}
