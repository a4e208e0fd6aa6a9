// What is printed. A line begins with op, number and place; a refused call has zeros for all that follows but the lent memory.
use crate::op::Op;
use ledgerfern::{
    Cue, Head, On, Playing, Read, Room, Starts, Value, Verdict, Window, Windows, Written,
};
use output::Output;
use std::io::Stdout;

const HEX: &[u8; 16] = b"0123456789abcdef";

#[derive(Drop)]
pub struct Lines {
    out: Output<Stdout>,
}

impl Lines {
    pub fn new(stdout: Stdout) -> Lines {
        Lines {
            out: Output::new(stdout),
        }
    }

    // Whether it went needs no word: after a write that failed nothing is written, and a reader that finds no last line knows.
    pub fn flush(&mut self) {
        let _ = self.out.flush();
    }

    pub fn text(&mut self, bytes: &[u8]) {
        self.out.put_bytes(bytes);
    }

    fn end(&mut self) {
        self.out.put_byte(b'\n');
    }

    fn fields(&mut self, numbers: &[u64]) {
        for number in numbers {
            self.out.put_byte(b' ');
            self.out.put_number(*number);
        }
    }

    fn words(&mut self, words: &[u64]) {
        self.text(b" |");
        self.fields(words);
    }

    // Op, number and place, and the values.
    fn answer(&mut self, op: Op, number: u64, place: u64, values: &[u64]) {
        self.out.put_number(op as u64);
        self.fields(&[number, place]);
        self.fields(values);
    }

    // An answer that is a line by itself.
    fn line(&mut self, op: Op, number: u64, place: u64, values: &[u64]) {
        self.answer(op, number, place, values);
        self.end();
    }

    // An answer, and a table as the call left it.
    fn table(&mut self, op: Op, number: u64, place: u64, clips: u64, table: &[u64]) {
        self.answer(op, number, place, &[clips]);
        self.words(table);
        self.end();
    }

    pub fn verdict(&mut self, r: Verdict) {
        self.line(Op::Verdict, r.number, r.place, &[r.master]);
    }

    pub fn room(&mut self, r: Room) {
        self.line(Op::Room, r.number, r.place, &[r.clips, r.tags]);
    }

    pub fn value(&mut self, op: Op, r: Value) {
        self.line(op, r.number, r.place, &[r.value]);
    }

    pub fn on(&mut self, r: On) {
        self.line(Op::ClipAt, r.number, r.place, &[r.turn, r.clip]);
    }

    pub fn playing(&mut self, r: Playing) {
        let values = [r.turn, r.clip, r.since, r.left];
        self.line(Op::PlayingAt, r.number, r.place, &values);
    }

    pub fn starts(&mut self, r: Starts, out: &[u64]) {
        self.table(Op::Starts, r.number, r.place, r.clips, out);
    }

    pub fn window(&mut self, r: Window) {
        let values = [r.present, r.start, r.end];
        self.line(Op::Window, r.number, r.place, &values);
    }

    pub fn windows(&mut self, r: Windows, out: &[u64]) {
        self.table(Op::Windows, r.number, r.place, r.clips, out);
    }

    pub fn cue(&mut self, r: Cue) {
        let values = [r.start, r.uri_start, r.uri_end];
        self.line(Op::CueReader, r.number, r.place, &values);
    }

    fn head(&mut self, h: Head) {
        self.fields(&[
            h.version_present,
            h.version,
            h.target_duration,
            h.media_sequence,
            h.discontinuity_sequence,
            h.playlist_type,
            h.type_start,
            h.type_end,
            h.end_list,
            h.i_frames_only,
            h.independent_segments,
        ]);
    }

    // The answer of the reader, and both tables as the call left them.
    pub fn reader(&mut self, r: Read, clips: &[u64], tags: &[u64]) {
        let values = [r.clips, r.tags, r.stop];
        self.answer(Op::Reader, r.number, r.place, &values);
        self.head(r.head);
        self.words(clips);
        self.words(tags);
        self.end();
    }

    // In lower-case hex.
    fn hex(&mut self, bytes: &[u8]) {
        for byte in bytes {
            self.out.put_byte(HEX[usize::from(*byte / 16)]);
            self.out.put_byte(HEX[usize::from(*byte % 16)]);
        }
    }

    // The answer of a writer, of a playlist or of a cue file, and the output as the call left it.
    pub fn writer(&mut self, op: Op, r: Written, out: &[u8]) {
        self.answer(op, r.number, r.place, &[r.length]);
        self.text(b" | ");
        if out.is_empty() {
            self.text(b"-");
        }
        self.hex(out);
        self.end();
    }
}
