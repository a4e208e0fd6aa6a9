// A reader that keeps why a read of it failed, so that a program can say it.
ghost use Rattle.std.specs.Prelude.{◌≡◌, None, Some, IfErr, OnOk};
ghost use Rattle.std.specs.Io.{ReadsAtMost};
ghost use Rattle.std.specs.Io.KnownBytes.{ReadConsumes};

use std::io;
use std::io::Read;

#[derive(Drop)]
pub struct Watched<R> {
    from: R,
    pub error: Option<io::Error>,
}

impl<R> Watched<R> {
    pub fn new(from: R) -> Watched<R>
        ensures before { result.from ≡ from }
        ensures went { result.error ≡ None }
    {
        Watched { from, error: None }
    }
}

impl<R: Read> Read for Watched<R> {
    ghost remaining = { λ s. R.remaining s.from };

    fn read(&mut self, buf: &mut [u8]) -> io::Result<usize>
        ensures bound { ReadsAtMost result buf.new }
        ensures bytes { ReadConsumes (R.remaining self.old.from) (R.remaining self.new.from) result buf.new }
        ensures kept { IfErr result (λ e. self.new.error ≡ Some e) }
        ensures unchanged { OnOk result (self.new.error ≡ self.old.error) }
    {
        let read = self.from.read(buf);
        if let Err(e) = read {
            self.error = Some(e);
        }
        read
    }
}
