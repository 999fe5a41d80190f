// Standard output.
use arrayvec::ArrayVec;
use std::io;
use std::io::Write;

// How many bytes are gathered before they are written out.
const ROOM: usize = 4096;

// Text for standard output, gathered on the stack, so that there are few writes and no memory of the heap is needed.
#[derive(Drop)]
pub struct Gathered<'a, P> {
    to: &'a P,
    text: ArrayVec<u8, ROOM>,
}

impl<'a, P: Print> Gathered<'a, P> {
    pub fn new(to: &'a P) -> Gathered<'a, P> {
        Gathered {
            to,
            text: ArrayVec::new(),
        }
    }
}

impl<P: Print> Write for Gathered<'_, P> {
    // As many bytes as there is room for; a full buffer is written out first.
    fn write(&mut self, bytes: &[u8]) -> io::Result<usize> {
        if self.text.is_full() {
            self.flush()?;
        }
        self.text.write(bytes)
    }

    // A failure is the last try: the library's method would go on for good where standard output says each time that it was interrupted.
    fn write_all(&mut self, bytes: &[u8]) -> io::Result<()> {
        for &b in bytes {
            if self.text.is_full() {
                self.flush()?;
            }
            let _ = self.text.try_push(b);
        }
        Ok(())
    }

    fn flush(&mut self) -> io::Result<()> {
        self.to.write_all(self.text.as_slice())?;
        self.text.clear();
        Ok(())
    }
}
