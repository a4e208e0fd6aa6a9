// The face of the library: every public call under its C name. `ledgerfern_c` exports them for C and for Rust (include/ledgerfern.h, bindings/rust).
// An answer is a struct of numbers by value: 01's number and place, and zeros for all else where the call is refused.
// A slice is a pointer and a length. Nothing is kept after a call, and nothing allocated.
#![tactic(auto)]

ghost use Rattle.std.specs.Prelude.{◌≡◌};
ghost use Rattle.verdict.specs.Calls.{is_master_playlist};
ghost use Rattle.media.specs.Calls.{room_for};
ghost use Rattle.clock.specs.Calls as clock;
ghost use Rattle.playing.specs.Playing as playing;
ghost use Rattle.window.specs.Window as window;
ghost use Rattle.cue_file.specs.Format.{version1};
ghost use Rattle.cue_file.specs.Read.{cue_read};
ghost use Rattle.ledgerfern.specs.Numbers.{verdict_numbers, room_numbers, value_numbers, window_numbers, on_numbers, playing_numbers, cue_numbers, ReadAs, StartsAs, WindowsAs, CueWriteAs};
ghost use Rattle.ledgerfern.specs.Write.{WriteAs};

use clock::turns;

pub mod numbers; // the numbers of an answer
pub mod heads; // a head from its numbers

#[repr(C)]
#[derive(Clone, Copy, Default)]
pub struct Verdict {
    pub number: u64,
    pub place: u64,
    pub master: u64,
}

// A head's eleven numbers. A mark is 1 or 0. The type is 0 absent, 1 EVENT, 2 VOD, 3 another text, which has a span.
#[repr(C)]
#[derive(Clone, Copy, Default)]
pub struct Head {
    pub version_present: u64,
    pub version: u64,
    pub target_duration: u64,
    pub media_sequence: u64,
    pub discontinuity_sequence: u64,
    pub playlist_type: u64,
    pub type_start: u64,
    pub type_end: u64,
    pub end_list: u64,
    pub i_frames_only: u64,
    pub independent_segments: u64,
}

// How many clips and kept unknown tags were stored, and where the reading stopped.
#[repr(C)]
#[derive(Clone, Copy, Default)]
pub struct Read {
    pub number: u64,
    pub place: u64,
    pub clips: u64,
    pub tags: u64,
    pub stop: u64,
    pub head: Head,
}

// How many clips and kept unknown tags the reader has to store.
#[repr(C)]
#[derive(Clone, Copy, Default)]
pub struct Room {
    pub number: u64,
    pub place: u64,
    pub clips: u64,
    pub tags: u64,
}

// How many bytes were written.
#[repr(C)]
#[derive(Clone, Copy, Default)]
pub struct Written {
    pub number: u64,
    pub place: u64,
    pub length: u64,
}

// A number of ns or of ticks.
#[repr(C)]
#[derive(Clone, Copy, Default)]
pub struct Value {
    pub number: u64,
    pub place: u64,
    pub value: u64,
}

// A clip, in a turn.
#[repr(C)]
#[derive(Clone, Copy, Default)]
pub struct On {
    pub number: u64,
    pub place: u64,
    pub turn: u64,
    pub clip: u64,
}

// A clip in a turn, how many ticks ago it started, and how many are left until the next start.
#[repr(C)]
#[derive(Clone, Copy, Default)]
pub struct Playing {
    pub number: u64,
    pub place: u64,
    pub turn: u64,
    pub clip: u64,
    pub since: u64,
    pub left: u64,
}

// How many clips' starts were stored.
#[repr(C)]
#[derive(Clone, Copy, Default)]
pub struct Starts {
    pub number: u64,
    pub place: u64,
    pub clips: u64,
}

// The first byte of a clip's range and the place after its last one; without a range, zeros.
#[repr(C)]
#[derive(Clone, Copy, Default)]
pub struct Window {
    pub number: u64,
    pub place: u64,
    pub present: u64,
    pub start: u64,
    pub end: u64,
}

// How many clips' windows were stored.
#[repr(C)]
#[derive(Clone, Copy, Default)]
pub struct Windows {
    pub number: u64,
    pub place: u64,
    pub clips: u64,
}

// A clip of a cue file: its start in ns, the first byte of its URI in the file and the place after its last one; and how many clips the file has.
#[repr(C)]
#[derive(Clone, Copy, Default)]
pub struct Cue {
    pub number: u64,
    pub place: u64,
    pub start: u64,
    pub uri_start: u64,
    pub uri_end: u64,
    pub clips: u64,
}

// Whether a text is a master playlist.
pub fn ledgerfern_verdict(text: &[u8]) -> Verdict
    ensures { result ≡ verdict_numbers (is_master_playlist text.now) }
{
    Verdict::from(verdict::is_master_playlist(text))
}

// Reads a media playlist into the two lent tables. A refused call leaves both as they were.
pub fn ledgerfern_read(text: &[u8], clips: &mut [u64], tags: &mut [u64]) -> Read
    ensures { ReadAs text.now clips.old tags.old clips.new tags.new result }
{
    Read::from(media::parse_media_playlist(text, clips, tags))
}

// How many records the two tables of the reader need to have room for: it refuses what the reader does, but for the tables.
pub fn ledgerfern_room(text: &[u8]) -> Room
    ensures { result ≡ room_numbers (room_for text.now) }
{
    Room::from(media::room(text))
}

// Writes a playlist of a head, clips and unknown tags into the lent output. Numbers that no head has break rule 9; a text that is too long comes first.
// A refused call leaves the output as it was.
pub fn ledgerfern_write(
    text: &[u8],
    head: Head,
    clip_count: usize,
    clips: &[u64],
    tag_count: usize,
    tags: &[u64],
    out: &mut [u8],
) -> Written
    ensures { WriteAs text.now clips.now clip_count tags.now tag_count head out.old out.new result }
{
    let Some(head) = heads::head_of(head) else {
        return numbers::of_no_head(text);
    };
    Written::from(writer::write_to(text, head, clips, clip_count, tags, tag_count, out))
}

// All lengths together, in ns.
pub fn ledgerfern_total(clip_count: usize, clips: &[u64]) -> Value
    ensures { result ≡ value_numbers (clock.total clips.now clip_count) }
{
    Value::from(clock::total(clips, clip_count))
}

// The start of a clip within its turn, in ns.
pub fn ledgerfern_start_ns(clip_count: usize, clips: &[u64], clip: usize) -> Value
    ensures { result ≡ value_numbers (clock.start_ns clips.now clip_count clip) }
{
    Value::from(clock::start_ns(clips, clip_count, clip))
}

// The tick at which a clip starts in a turn.
pub fn ledgerfern_start_tick(
    clip_count: usize,
    clips: &[u64],
    rate: u64,
    turn: u64,
    clip: usize,
) -> Value
    ensures { result ≡ value_numbers (clock.start_tick clips.now clip_count rate turn clip) }
{
    Value::from(turns::start_tick(clips, clip_count, rate, turn, clip))
}

// A clip's ticks in a turn: the next start minus its own.
pub fn ledgerfern_clip_ticks(
    clip_count: usize,
    clips: &[u64],
    rate: u64,
    turn: u64,
    clip: usize,
) -> Value
    ensures { result ≡ value_numbers (clock.clip_ticks clips.now clip_count rate turn clip) }
{
    Value::from(turns::clip_ticks(clips, clip_count, rate, turn, clip))
}

// All starts of a turn into the lent table, two words a clip: in ns within the turn, and in ticks. A refused call leaves it as it was.
pub fn ledgerfern_starts(
    clip_count: usize,
    clips: &[u64],
    rate: u64,
    turn: u64,
    out: &mut [u64],
) -> Starts
    ensures { StartsAs clips.now clip_count rate turn out.old out.new result }
{
    Starts::from(starts::table::all_starts(clips, clip_count, rate, turn, out))
}

// Which clip is on at a tick, and in which turn.
pub fn ledgerfern_clip_at(clip_count: usize, clips: &[u64], rate: u64, tick: u64) -> On
    ensures { result ≡ on_numbers (playing.clip_at clips.now clip_count rate tick) }
{
    On::from(playing::clip_at(clips, clip_count, rate, tick))
}

// The same, with the ticks since its start and those left until the next.
pub fn ledgerfern_playing_at(clip_count: usize, clips: &[u64], rate: u64, tick: u64) -> Playing
    ensures { result ≡ playing_numbers (playing.playing_at clips.now clip_count rate tick) }
{
    Playing::from(playing::playing_at(clips, clip_count, rate, tick))
}

// The byte window of a clip.
pub fn ledgerfern_window(text: &[u8], clip_count: usize, clips: &[u64], clip: usize) -> Window
    ensures { result ≡ window_numbers (window.window text.now clips.now clip_count clip) }
{
    Window::from(window::window(text, clips, clip_count, clip))
}

// The windows of all clips into the lent table, four words a clip: what the call for that clip gives, without the place. A refused call leaves it as it was.
pub fn ledgerfern_windows(text: &[u8], clip_count: usize, clips: &[u64], out: &mut [u64]) -> Windows
    ensures { WindowsAs text.now clips.now clip_count out.old out.new result }
{
    Windows::from(windows::table::all_windows(text, clips, clip_count, out))
}

// The cue file of a text's clips into the lent output. A refused call leaves it as it was.
pub fn ledgerfern_cue_write(
    text: &[u8],
    clip_count: usize,
    clips: &[u64],
    out: &mut [u8],
) -> Written
    ensures { CueWriteAs text.now clips.now clip_count out.old out.new result }
{
    Written::from(cue_writer::write(text, clips, clip_count, out))
}

// A clip of a cue file, which is judged whole.
pub fn ledgerfern_cue_read(file: &[u8], clip: usize) -> Cue
    ensures { result ≡ cue_numbers (cue_read version1 file.now clip) }
{
    Cue::from(cue_reader::read(file, clip))
}
