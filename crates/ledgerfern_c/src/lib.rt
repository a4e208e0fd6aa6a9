// The archive for C and for Rust: each call of the face under its C name (include/ledgerfern.h, bindings/rust), with the face's own promise.
#![tactic(auto)]

ghost use Rattle.std.specs.Prelude.{◌≡◌};
ghost use Rattle.verdict.specs.Calls.{is_master_playlist};
ghost use Rattle.media.specs.Calls.{room_for};
ghost use Rattle.clock.specs.Calls as clock;
ghost use Rattle.playing.specs.Playing as playing;
ghost use Rattle.window.specs.Window as window;
ghost use Rattle.cue_file.specs.Format.{version1};
ghost use Rattle.cue_file.specs.Read.{cue_read};
ghost use Rattle.ledgerfern.specs.Numbers.{verdict_numbers, room_numbers, value_numbers, window_numbers, on_numbers, playing_numbers, cue_numbers, ReadAs, StartsAs, WindowsAs, CueWriteAs};
ghost use Rattle.ledgerfern.specs.Write.{WriteAs};

use ledgerfern::{
    Cue, Head, On, Playing, Read, Room, Starts, Value, Verdict, Window, Windows, Written,
};

// Whether a text is a master playlist.
#[unsafe(no_mangle)]
pub extern "C" fn ledgerfern_verdict(text: &[u8]) -> Verdict
    ensures { result ≡ verdict_numbers (is_master_playlist text.now) }
{
    ledgerfern::ledgerfern_verdict(text)
}

// Reads a media playlist into the two lent tables. A refused call leaves both as they were.
#[unsafe(no_mangle)]
pub extern "C" fn ledgerfern_read(text: &[u8], clips: &mut [u64], tags: &mut [u64]) -> Read
    ensures { ReadAs text.now clips.old tags.old clips.new tags.new result }
{
    ledgerfern::ledgerfern_read(text, clips, tags)
}

// How many records the two tables of the reader need to have room for: it refuses what the reader does, but for the tables.
#[unsafe(no_mangle)]
pub extern "C" fn ledgerfern_room(text: &[u8]) -> Room
    ensures { result ≡ room_numbers (room_for text.now) }
{
    ledgerfern::ledgerfern_room(text)
}

// Writes a playlist of a head, clips and unknown tags into the lent output. Numbers that no head has break rule 9; a text that is too long comes first.
// A refused call leaves the output as it was.
#[unsafe(no_mangle)]
pub extern "C" fn ledgerfern_write(
    text: &[u8],
    head: Head,
    clip_count: usize,
    clips: &[u64],
    tag_count: usize,
    tags: &[u64],
    out: &mut [u8],
) -> Written
    ensures { WriteAs text.now clips.now clip_count tags.now tag_count head out.old out.new result }
{
    ledgerfern::ledgerfern_write(text, head, clip_count, clips, tag_count, tags, out)
}

// All lengths together, in ns.
#[unsafe(no_mangle)]
pub extern "C" fn ledgerfern_total(clip_count: usize, clips: &[u64]) -> Value
    ensures { result ≡ value_numbers (clock.total clips.now clip_count) }
{
    ledgerfern::ledgerfern_total(clip_count, clips)
}

// The start of a clip within its turn, in ns.
#[unsafe(no_mangle)]
pub extern "C" fn ledgerfern_start_ns(clip_count: usize, clips: &[u64], clip: usize) -> Value
    ensures { result ≡ value_numbers (clock.start_ns clips.now clip_count clip) }
{
    ledgerfern::ledgerfern_start_ns(clip_count, clips, clip)
}

// The tick at which a clip starts in a turn.
#[unsafe(no_mangle)]
pub extern "C" fn ledgerfern_start_tick(
    clip_count: usize,
    clips: &[u64],
    rate: u64,
    turn: u64,
    clip: usize,
) -> Value
    ensures { result ≡ value_numbers (clock.start_tick clips.now clip_count rate turn clip) }
{
    ledgerfern::ledgerfern_start_tick(clip_count, clips, rate, turn, clip)
}

// A clip's ticks in a turn: the next start minus its own.
#[unsafe(no_mangle)]
pub extern "C" fn ledgerfern_clip_ticks(
    clip_count: usize,
    clips: &[u64],
    rate: u64,
    turn: u64,
    clip: usize,
) -> Value
    ensures { result ≡ value_numbers (clock.clip_ticks clips.now clip_count rate turn clip) }
{
    ledgerfern::ledgerfern_clip_ticks(clip_count, clips, rate, turn, clip)
}

// All starts of a turn into the lent table, two words a clip: in ns within the turn, and in ticks. A refused call leaves it as it was.
#[unsafe(no_mangle)]
pub extern "C" fn ledgerfern_starts(
    clip_count: usize,
    clips: &[u64],
    rate: u64,
    turn: u64,
    out: &mut [u64],
) -> Starts
    ensures { StartsAs clips.now clip_count rate turn out.old out.new result }
{
    ledgerfern::ledgerfern_starts(clip_count, clips, rate, turn, out)
}

// Which clip is on at a tick, and in which turn.
#[unsafe(no_mangle)]
pub extern "C" fn ledgerfern_clip_at(clip_count: usize, clips: &[u64], rate: u64, tick: u64) -> On
    ensures { result ≡ on_numbers (playing.clip_at clips.now clip_count rate tick) }
{
    ledgerfern::ledgerfern_clip_at(clip_count, clips, rate, tick)
}

// The same, with the ticks since its start and those left until the next.
#[unsafe(no_mangle)]
pub extern "C" fn ledgerfern_playing_at(
    clip_count: usize,
    clips: &[u64],
    rate: u64,
    tick: u64,
) -> Playing
    ensures { result ≡ playing_numbers (playing.playing_at clips.now clip_count rate tick) }
{
    ledgerfern::ledgerfern_playing_at(clip_count, clips, rate, tick)
}

// The byte window of a clip.
#[unsafe(no_mangle)]
pub extern "C" fn ledgerfern_window(
    text: &[u8],
    clip_count: usize,
    clips: &[u64],
    clip: usize,
) -> Window
    ensures { result ≡ window_numbers (window.window text.now clips.now clip_count clip) }
{
    ledgerfern::ledgerfern_window(text, clip_count, clips, clip)
}

// The windows of all clips into the lent table, four words a clip: what the call for that clip gives, without the place. A refused call leaves it as it was.
#[unsafe(no_mangle)]
pub extern "C" fn ledgerfern_windows(
    text: &[u8],
    clip_count: usize,
    clips: &[u64],
    out: &mut [u64],
) -> Windows
    ensures { WindowsAs text.now clips.now clip_count out.old out.new result }
{
    ledgerfern::ledgerfern_windows(text, clip_count, clips, out)
}

// The cue file of a text's clips into the lent output. A refused call leaves it as it was.
#[unsafe(no_mangle)]
pub extern "C" fn ledgerfern_cue_write(
    text: &[u8],
    clip_count: usize,
    clips: &[u64],
    out: &mut [u8],
) -> Written
    ensures { CueWriteAs text.now clips.now clip_count out.old out.new result }
{
    ledgerfern::ledgerfern_cue_write(text, clip_count, clips, out)
}

// A clip of a cue file, which is judged whole.
#[unsafe(no_mangle)]
pub extern "C" fn ledgerfern_cue_read(file: &[u8], clip: usize) -> Cue
    ensures { result ≡ cue_numbers (cue_read version1 file.now clip) }
{
    ledgerfern::ledgerfern_cue_read(file, clip)
}
