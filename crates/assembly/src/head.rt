// A playlist's head. Of a repeated tag the last holds.
ghost use Rattle.std.specs.Prelude.{◌≡◌};
ghost use Rattle.tags.specs.Tags as tags;
ghost use Rattle.tags.specs.Answers.{head_tag_of};
ghost use Rattle.leaves.specs.Answers.{type_of};
ghost use Rattle.assembly.specs.Assembly as rule;
ghost use Rattle.assembly.specs.Answers.{head_seen};

use leaves::basic_tags::PlaylistType;
use tags::HeadTag;

#[derive(Clone, Copy)]
pub struct Head {
    pub version: Option<u64>,
    pub target_duration: u64,
    pub media_sequence: u64,
    pub discontinuity_sequence: u64,
    pub playlist_type: Option<PlaylistType>,
    pub end_list: bool,
    pub i_frames_only: bool,
    pub independent_segments: bool,
}

impl Head {
    pub fn empty() -> Head
        ensures { head_seen result ≡ rule.empty_head }
    {
        Head {
            version: None,
            target_duration: 0,
            media_sequence: 0,
            discontinuity_sequence: 0,
            playlist_type: None,
            end_list: false,
            i_frames_only: false,
            independent_segments: false,
        }
    }

    pub fn next(self, t: HeadTag) -> Head
        ensures { head_seen result ≡ rule.head_next (head_seen self) (head_tag_of t) }
    {
        let mut h = self;
        match t {
            HeadTag::Version(v) => h.version = Some(v),
            HeadTag::Typed(t) => h.playlist_type = Some(t),
            HeadTag::TargetDuration(d) => h.target_duration = d,
            HeadTag::MediaSequence(n) => h.media_sequence = n,
            HeadTag::DiscontinuitySequence(n) => h.discontinuity_sequence = n,
            HeadTag::EndList => h.end_list = true,
            HeadTag::IFramesOnly => h.i_frames_only = true,
            HeadTag::IndependentSegments => h.independent_segments = true,
        }
        h
    }
}
