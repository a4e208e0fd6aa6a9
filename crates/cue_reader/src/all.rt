// All clips of a file in one pass, so that n clips cost n steps: a cursor by value that goes from clip to clip.
ghost use Rattle.std.specs.Prelude.{◌≡◌};
ghost use Rattle.cue_file.specs.Format.{version1};
ghost use Rattle.cue_file.specs.Read as rule;
ghost use Rattle.cue_reader.specs.Answers.{cursor_of, opened_of, step_of};

use cue_file::CLIP_WIDTH;
use tables::Refusal;
use text::Span;

// Where a pass stands: how many clips there are, the next one, and the place of its URI.
#[derive(Clone, Copy)]
pub struct Cues {
    pub clips: usize,
    pub clip: usize,
    pub place: usize,
}

// A clip's number, its start in ns, its URI's span in the file.
#[derive(Clone, Copy)]
pub struct Cue {
    pub clip: usize,
    pub start: u64,
    pub uri: Span,
}

impl Cues {
    // A cursor before the first clip: 19, 20, 21, 22.
    pub fn new(file: &[u8]) -> Result<Cues, Refusal>
        ensures { opened_of result ≡ rule.cues version1 file.now }
    {
        let clips = crate::judged(file)?;
        let place = clips * CLIP_WIDTH;
        Ok(Cues {
            clips,
            clip: 0,
            place,
        })
    }

    // The next clip and the cursor after it, or none after the last. A file that is not that of `new` is refused where the clip does not lie within it.
    pub fn next(self, file: &[u8]) -> Result<Option<(Cue, Cues)>, Refusal>
        ensures { step_of result ≡ rule.next version1 file.now (cursor_of self) }
    {
        let clip = self.clip;
        let place = self.place;
        if self.clips <= clip {
            return Ok(None);
        }
        if file.len() / CLIP_WIDTH <= clip {
            return Err(Refusal::NotExact);
        }
        let length = crate::uri_length(file, clip);
        if file.len() < place {
            return Err(Refusal::NotExact);
        }
        if file.len() - place < length {
            return Err(Refusal::NotExact);
        }
        let end = place + length;
        let cue = Cue {
            clip,
            start: crate::start(file, clip),
            uri: Span { start: place, end },
        };
        let after = Cues {
            clip: clip + 1,
            place: end,
            ..self
        };
        Ok(Some((cue, after)))
    }
}
