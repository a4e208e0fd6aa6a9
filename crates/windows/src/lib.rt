// The windows of all clips in one pass, so that n clips cost n steps: a cursor by value that goes from clip to clip, and a lent table that is filled at once.
#![tactic(auto)]

pub mod table; // into a lent table

ghost use Rattle.std.specs.Prelude.{◌≡◌};
ghost use Rattle.windows.specs.Windows as rule;
ghost use Rattle.windows.specs.Answers.{cursor_of, opened_of, step_of};

use tables::Refusal;
use window::Window;

// Where a pass stands: the next clip, and the window of the one before it. The count stays as `new` made it.
#[derive(Clone, Copy)]
pub struct Windows {
    pub clips: usize,
    pub clip: usize,
    pub before: Window,
}

// A clip's number, and what the call for it answers.
#[derive(Clone, Copy)]
pub struct Row {
    pub clip: usize,
    pub window: Window,
}

impl Windows {
    // A cursor before the first clip: 1, 9.
    pub fn new(text: &[u8], words: &[u64], clips: usize) -> Result<Windows, Refusal>
        ensures { opened_of result ≡ rule.windows text.now words.now clips }
    {
        window::over_clips(text, words, clips)?;
        Ok(Windows {
            clips,
            clip: 0,
            before: Ok(None),
        })
    }

    // The next clip and the cursor after it, or none after the last. Words that are not those of `new` are refused where this clip's break their rule.
    pub fn next(self, text: &[u8], words: &[u64]) -> Result<Option<(Row, Windows)>, Refusal>
        ensures { step_of result ≡ rule.next text.now words.now (cursor_of self) }
    {
        let Windows {
            clips,
            clip,
            before,
        } = self;
        if clips <= clip {
            return Ok(None);
        }
        if !window::clip_keeps(text, words, clip) {
            return Err(Refusal::BrokenTable);
        }
        let window = window::window_after(text, words, clip, before);
        let row = Row { clip, window };
        let after = Windows {
            clips,
            clip: clip + 1,
            before: window,
        };
        Ok(Some((row, after)))
    }
}
