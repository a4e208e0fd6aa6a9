// A head from its eleven numbers, for a call that takes one: the way back from `From<head::Head> for Head`.
ghost use Rattle.std.specs.Prelude.{◌≡◌};
ghost use Rattle.assembly.specs.Answers.{version_of, head_type_of, head_seen};
ghost use Rattle.ledgerfern.specs.Heads as rule;
ghost use Rattle.ledgerfern.specs.Answers.{head_res};

use crate::Head;
use assembly::head;
use leaves::basic_tags::PlaylistType;
use text::Span;

const OTHER_TEXT: u64 = 3;

fn is_mark(number: u64) -> bool
    ensures { result ≡ rule.is_mark number }
{
    number <= 1
}

fn is_version(present: u64, version: u64) -> bool
    ensures { result ≡ rule.is_version present version }
{
    is_mark(present) & ((present == 1) | (version == 0))
}

fn is_type(number: u64, start: u64, end: u64) -> bool
    ensures { result ≡ rule.is_type number start end }
{
    (number <= OTHER_TEXT) & ((number == OTHER_TEXT) | ((start == 0) & (end == 0)))
}

// Whether a head has these numbers.
fn is_head(h: Head) -> bool
    ensures { result ≡ rule.is_head h }
{
    is_version(h.version_present, h.version)
        & is_type(h.playlist_type, h.type_start, h.type_end)
        & is_mark(h.end_list)
        & is_mark(h.i_frames_only)
        & is_mark(h.independent_segments)
}

fn mark_from(number: u64) -> bool
    ensures { result ≡ rule.mark_from number }
{
    match number {
        0 => false,
        _ => true,
    }
}

fn version_from(present: u64, version: u64) -> Option<u64>
    ensures { version_of result ≡ rule.version_from present version }
{
    match present {
        0 => None,
        _ => Some(version),
    }
}

fn type_from(number: u64, start: u64, end: u64) -> Option<PlaylistType>
    ensures { head_type_of result ≡ rule.type_from number start end }
{
    match number {
        0 => None,
        1 => Some(PlaylistType::Event),
        2 => Some(PlaylistType::Vod),
        _ => Some(PlaylistType::Other(Span {
            start: start as usize,
            end: end as usize,
        })),
    }
}

fn head_from(h: Head) -> head::Head
    ensures { head_seen result ≡ rule.head_from h }
{
    head::Head {
        version: version_from(h.version_present, h.version),
        target_duration: h.target_duration,
        media_sequence: h.media_sequence,
        discontinuity_sequence: h.discontinuity_sequence,
        playlist_type: type_from(h.playlist_type, h.type_start, h.type_end),
        end_list: mark_from(h.end_list),
        i_frames_only: mark_from(h.i_frames_only),
        independent_segments: mark_from(h.independent_segments),
    }
}

// Numbers that no head has are none: rule 9 refuses them. No `TryFrom`: which refusal it is depends on the text too, and is the caller's.
pub fn head_of(h: Head) -> Option<head::Head>
    ensures { head_res result ≡ rule.head_of h }
{
    if !is_head(h) {
        return None;
    }
    Some(head_from(h))
}
