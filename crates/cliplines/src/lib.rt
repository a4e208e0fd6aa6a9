// A clip's lines (playlist.rs, `MediaSegment::write_to`) at the front of a lent output: as many of their bytes as it has room for. Each function answers the
// place that it reached. Lines that may be missing put nothing then.
#![tactic(auto)]

ghost use Rattle.std.specs.Prelude.{◌≡◌, ◌+◌, ◌-◌, min};
ghost use Rattle.assembly.specs.Answers.{clip_seen};
ghost use Rattle.records.specs.Records.{clip_at};
ghost use Rattle.put.specs.Put.{Puts};
ghost use Rattle.playlist.specs.Inside.Texts.{run_text, clip_text};

use assembly::Clip;
use tables::layout;

mod lines; // a line of each kind
mod plain; // the lines of most clips, by their words

// Where a run of `count` unknown tags ends, of which there are `tag_count`.
fn run_end(first: usize, count: usize, tag_count: usize) -> usize
    ensures { result ≡ first + min count (tag_count - first) }
{
    if tag_count < first {
        return first;
    }
    if tag_count - first < count {
        return tag_count;
    }
    first + count
}

// The lines of a run of unknown tags.
fn tag_lines(
    out: &mut [u8],
    at: usize,
    text: &[u8],
    tags: &[u64],
    tag_count: usize,
    first: usize,
    count: usize,
) -> usize
    ensures { Puts out.old at (run_text text.now tags.now tag_count first count) out.new result }
{
    let end = run_end(first, count, tag_count);
    let mut to = at;
    for k in first..end {
        to = lines::tag_line(out, to, text, records::tag_at(tags, k));
    }
    to
}

// All of them. A place is named by what begins there.
fn clip(out: &mut [u8], text: &[u8], tags: &[u64], tag_count: usize, c: Clip) -> usize
    ensures { Puts out.old 0 (clip_text text.now tags.now tag_count (clip_seen c)) out.new result }
{
    let segment = c.segment;
    let range_at = lines::map_lines(out, 0, text, segment.map);
    let mark_at = lines::range_lines(out, range_at, segment.byte_range);
    let tags_at = put::copy_where(
        out,
        mark_at,
        b"#EXT-X-DISCONTINUITY\n",
        segment.discontinuity,
    );
    let extinf_at = tag_lines(out, tags_at, text, tags, tag_count, c.first, c.count);
    let uri_at = lines::extinf_line(out, extinf_at, text, segment.length, segment.title);
    lines::uri_line(out, uri_at, text, c.uri)
}

// Those of clip k of a table. Most clips have neither map, discontinuity nor unknown tags, and their lines are put by their words: no clip is made of these.
pub fn clip_of(
    out: &mut [u8],
    text: &[u8],
    clips: &[u64],
    k: usize,
    tags: &[u64],
    tag_count: usize,
) -> usize
    ensures { Puts out.old 0 (clip_text text.now tags.now tag_count (clip_at clips.now k)) out.new result }
{
    if k < clips.len() / layout::CLIP_WORDS {
        if plain::is_plain(clips, k) {
            return plain::plain_clip(out, text, clips, k);
        }
    }
    let c = records::clip_at(clips, k);
    clip(out, text, tags, tag_count, c)
}
