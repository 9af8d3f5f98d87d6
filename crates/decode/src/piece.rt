// The piece so far: what is longer than its buffer is no answer, none of which has more than 49 bytes.
use crate::tell::{tell, tell_refused};
use std::io;

#[derive(Clone, Copy)]
pub struct Piece {
    bytes: [u8; 64],
    held: usize,
    // Its last byte is CR.
    returned: bool,
}

impl Piece {
    pub fn new() -> Piece {
        Piece {
            bytes: [0; 64],
            held: 0,
            returned: false,
        }
    }

    // One that fills the buffer may have lost bytes.
    fn tell(&self, rt: &impl Print) -> io::Result<()> {
        if self.held < self.bytes.len() {
            tell(rt, &self.bytes[..self.held])
        } else {
            tell_refused(rt)
        }
    }

    // The next byte, as long as there is room for one more.
    pub fn take(&mut self, rt: &impl Print, byte: u8) -> io::Result<()> {
        if let Some(place) = self.bytes.get_mut(self.held) {
            *place = byte;
            self.held += 1;
        }
        if self.returned && byte == b'\n' {
            self.tell(rt)?;
            self.held = 0;
        }
        self.returned = byte == b'\r';
        Ok(())
    }

    // The end of the capture ends a last piece.
    pub fn close(&self, rt: &impl Print) -> io::Result<()> {
        if self.held == 0 {
            Ok(())
        } else {
            self.tell(rt)
        }
    }
}
