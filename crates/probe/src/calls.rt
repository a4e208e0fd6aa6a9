// For each op: its arguments, the call of the face with exactly that memory, its line. A record that is cut off or too large makes no call.
// Memory that a call fills is printed as the call leaves it.
ghost use Rattle.std.specs.Prelude.{◌≤◌, length, IfOk};

use crate::Probe;
use crate::op::Op;
use input::{Input, Stop};
use ledgerfern::{Head, Value};
use std::io::Stdin;

// A table as a record has it: how many entries it is said to hold, and the words that are lent.
#[derive(Clone, Copy)]
struct Table<'a> {
    entries: usize,
    words: &'a [u64],
}

// No more words than were lent.
fn take_table<'a>(input: &mut Input<Stdin>, words: &'a mut [u64]) -> Result<Table<'a>, Stop>
    ensures { IfOk result (λ table. length table.words.now ≤ length words.old) }
{
    let entries = input.number()? as usize;
    let words = input.numbers(words)?;
    Ok(Table { entries, words })
}

// A head as a record has it, whatever its numbers are.
fn take_head(input: &mut Input<Stdin>) -> Result<Head, Stop> {
    Ok(Head {
        version_present: input.number()?,
        version: input.number()?,
        target_duration: input.number()?,
        media_sequence: input.number()?,
        discontinuity_sequence: input.number()?,
        playlist_type: input.number()?,
        type_start: input.number()?,
        type_end: input.number()?,
        end_list: input.number()?,
        i_frames_only: input.number()?,
        independent_segments: input.number()?,
    })
}

impl Probe {
    pub fn call(&mut self, op: Op) -> Result<(), Stop> {
        match op {
            Op::Verdict => self.verdict(),
            Op::Reader => self.reader(),
            Op::Writer => self.writer(),
            Op::Total => self.total(),
            Op::StartTick => self.ticks(op, ledgerfern::ledgerfern_start_tick),
            Op::Window => self.window(),
            Op::ClipTicks => self.ticks(op, ledgerfern::ledgerfern_clip_ticks),
            Op::ClipAt => self.clip_at(),
            Op::CueWriter => self.cue_writer(),
            Op::CueReader => self.cue_reader(),
            Op::PlayingAt => self.playing_at(),
            Op::Starts => self.starts(),
            Op::Room => self.room(),
            Op::StartNs => self.start_ns(),
            Op::Windows => self.windows(),
        }
    }

    fn verdict(&mut self) -> Result<(), Stop> {
        let text = self.input.bytes(&mut self.text)?;
        self.lines.verdict(ledgerfern::ledgerfern_verdict(text));
        Ok(())
    }

    fn room(&mut self) -> Result<(), Stop> {
        let text = self.input.bytes(&mut self.text)?;
        self.lines.room(ledgerfern::ledgerfern_room(text));
        Ok(())
    }

    fn reader(&mut self) -> Result<(), Stop> {
        let text = self.input.bytes(&mut self.text)?;
        let clips = self.input.numbers(&mut self.clips)?;
        let tags = self.input.numbers(&mut self.tags)?;
        let given = ledgerfern::ledgerfern_read(text, clips, tags);
        self.lines.reader(given, clips, tags);
        Ok(())
    }

    fn writer(&mut self) -> Result<(), Stop> {
        let text = self.input.bytes(&mut self.text)?;
        let head = take_head(&mut self.input)?;
        let clips = take_table(&mut self.input, &mut self.clips)?;
        let tags = take_table(&mut self.input, &mut self.tags)?;
        let out = self.input.bytes(&mut self.out)?;
        let given = ledgerfern::ledgerfern_write(
            text,
            head,
            clips.entries,
            clips.words,
            tags.entries,
            tags.words,
            out,
        );
        self.lines.writer(Op::Writer, given, out);
        Ok(())
    }

    fn total(&mut self) -> Result<(), Stop> {
        let clips = take_table(&mut self.input, &mut self.clips)?;
        let given = ledgerfern::ledgerfern_total(clips.entries, clips.words);
        self.lines.value(Op::Total, given);
        Ok(())
    }

    fn start_ns(&mut self) -> Result<(), Stop> {
        let clips = take_table(&mut self.input, &mut self.clips)?;
        let clip = self.input.number()? as usize;
        let given = ledgerfern::ledgerfern_start_ns(clips.entries, clips.words, clip);
        self.lines.value(Op::StartNs, given);
        Ok(())
    }

    // A number of ticks, of the start tick or of a clip's ticks.
    fn ticks<F>(&mut self, op: Op, ticks: F) -> Result<(), Stop>
    where
        F: Fn(usize, &[u64], u64, u64, usize) -> Value + Drop,
        requires { F.IsAlwaysCallable ticks }
    {
        let clips = take_table(&mut self.input, &mut self.clips)?;
        let rate = self.input.number()?;
        let turn = self.input.number()?;
        let clip = self.input.number()? as usize;
        self.lines
            .value(op, ticks(clips.entries, clips.words, rate, turn, clip));
        Ok(())
    }

    fn clip_at(&mut self) -> Result<(), Stop> {
        let clips = take_table(&mut self.input, &mut self.clips)?;
        let rate = self.input.number()?;
        let tick = self.input.number()?;
        let given = ledgerfern::ledgerfern_clip_at(clips.entries, clips.words, rate, tick);
        self.lines.on(given);
        Ok(())
    }

    fn playing_at(&mut self) -> Result<(), Stop> {
        let clips = take_table(&mut self.input, &mut self.clips)?;
        let rate = self.input.number()?;
        let tick = self.input.number()?;
        let given = ledgerfern::ledgerfern_playing_at(clips.entries, clips.words, rate, tick);
        self.lines.playing(given);
        Ok(())
    }

    fn starts(&mut self) -> Result<(), Stop> {
        let clips = take_table(&mut self.input, &mut self.clips)?;
        let rate = self.input.number()?;
        let turn = self.input.number()?;
        let out = self.input.numbers(&mut self.tags)?;
        let given = ledgerfern::ledgerfern_starts(clips.entries, clips.words, rate, turn, out);
        self.lines.starts(given, out);
        Ok(())
    }

    fn window(&mut self) -> Result<(), Stop> {
        let text = self.input.bytes(&mut self.text)?;
        let clips = take_table(&mut self.input, &mut self.clips)?;
        let clip = self.input.number()? as usize;
        let given = ledgerfern::ledgerfern_window(text, clips.entries, clips.words, clip);
        self.lines.window(given);
        Ok(())
    }

    fn windows(&mut self) -> Result<(), Stop> {
        let text = self.input.bytes(&mut self.text)?;
        let clips = take_table(&mut self.input, &mut self.clips)?;
        let out = self.input.numbers(&mut self.tags)?;
        let given = ledgerfern::ledgerfern_windows(text, clips.entries, clips.words, out);
        self.lines.windows(given, out);
        Ok(())
    }

    fn cue_writer(&mut self) -> Result<(), Stop> {
        let text = self.input.bytes(&mut self.text)?;
        let clips = take_table(&mut self.input, &mut self.clips)?;
        let out = self.input.bytes(&mut self.out)?;
        let given = ledgerfern::ledgerfern_cue_write(text, clips.entries, clips.words, out);
        self.lines.writer(Op::CueWriter, given, out);
        Ok(())
    }

    fn cue_reader(&mut self) -> Result<(), Stop> {
        let file = self.input.bytes(&mut self.text)?;
        let clip = self.input.number()? as usize;
        self.lines.cue(ledgerfern::ledgerfern_cue_read(file, clip));
        Ok(())
    }
}
