// Writing a media playlist (playlist.rs, `MediaPlaylist::write_to`) into a lent output: head, clips and end, line by line. Whether the text may be written is
// known before a byte is, so that a refused call has touched nothing.
#![tactic(auto)]

ghost use Rattle.std.specs.Prelude.{◌≤◌, length};
ghost use Rattle.assembly.specs.Answers.{head_seen};
ghost use Rattle.put.specs.Put.{Puts};
ghost use Rattle.playlist.specs.Calls.{written_text, WrittenAs};
ghost use Rattle.playlist.specs.Answers.{write_answer};
ghost use Rattle.playlist.specs.Inside.Texts.{clips_text};

use assembly::head::Head;
use tables::Refusal;

// All clips. Each is written into the output's tail from where the one before it ended.
fn clip_lines(
    out: &mut [u8],
    at: usize,
    text: &[u8],
    clips: &[u64],
    clip_count: usize,
    tags: &[u64],
    tag_count: usize,
) -> usize
    requires { at ≤ length out.old }
    ensures { Puts out.old at (clips_text text.now tags.now tag_count clips.now 0 clip_count) out.new result }
{
    let mut to = at;
    for k in 0..clip_count {
        to += cliplines::clip_of(&mut out[to..], text, clips, k, tags, tag_count);
    }
    to
}

// The whole text, from the front of `out` on.
fn whole(
    out: &mut [u8],
    text: &[u8],
    h: Head,
    clips: &[u64],
    clip_count: usize,
    tags: &[u64],
    tag_count: usize,
) -> usize
    ensures { Puts out.old 0 (written_text text.now (head_seen h) clips.now clip_count tags.now tag_count) out.new result }
{
    let clips_at = headlines::head(out, 0, text, h);
    let end_at = clip_lines(out, clips_at, text, clips, clip_count, tags, tag_count);
    put::copy_where(out, end_at, b"#EXT-X-ENDLIST\n", h.end_list)
}

// Refusals 1, 9, 10. A refused call leaves the output as it was, and the output past the text is unchanged.
pub fn write_to(
    text: &[u8],
    head: Head,
    clips: &[u64],
    clip_count: usize,
    tags: &[u64],
    tag_count: usize,
    out: &mut [u8],
) -> Result<usize, Refusal>
    ensures { WrittenAs text.now (head_seen head) clips.now clip_count tags.now tag_count write_answer out.old out.new result }
{
    measure::may_write(text, head, clips, clip_count, tags, tag_count, out.len())?;
    Ok(whole(out, text, head, clips, clip_count, tags, tag_count))
}
