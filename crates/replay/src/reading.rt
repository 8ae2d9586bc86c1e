// Reads numbers and strings of bytes from standard input. Every byte goes into the hash.

// What makes no list.
#[derive(Clone, Copy, PartialEq, Eq)]
pub(crate) enum Unreadable {
    CutOff,
    TooLong,
    TooLarge,
}

// The commands of a stored list, and their text.
#[derive(Clone, Copy)]
pub(crate) struct Stored<'a> {
    pub(crate) script: &'a [u8],
    pub(crate) text: &'a [u8],
}

// Standard input, and the hash of what was read.
#[derive(Drop)]
pub(crate) struct Input {
    pub(crate) hash: u32,
}

// FNV-1a, 32 bits: one changed byte always changes it.
fn mixed(hash: u32, byte: u8) -> u32 {
    (hash ^ u32::from(byte)).wrapping_mul(16777619)
}

impl Input {
    pub(crate) fn new() -> Input {
        Input { hash: 2166136261 }
    }

    // As many bytes as there are, up to the room's end. Gives their number.
    fn read(&mut self, room: &mut [u8]) -> usize {
        let n = io::read_full(0, room);
        self.hash = room[..n]
            .iter()
            .fold(self.hash, |hash, byte| mixed(hash, *byte));
        n
    }

    fn fill(&mut self, room: &mut [u8]) -> Result<(), Unreadable> {
        if self.read(room) < room.len() {
            return Err(Unreadable::CutOff);
        }
        Ok(())
    }

    // A number in the middle of a list.
    fn number(&mut self) -> Result<usize, Unreadable> {
        let mut room = [0u8; 4];
        self.fill(&mut room)?;
        Ok(records::bytes::word(&room, 0) as usize)
    }

    // The number that a list starts with, if there is a list.
    pub(crate) fn start(&mut self) -> Result<Option<usize>, Unreadable> {
        let mut room = [0u8; 4];
        match self.read(&mut room) {
            0 => Ok(None),
            4 => Ok(Some(records::bytes::word(&room, 0) as usize)),
            _ => Err(Unreadable::CutOff),
        }
    }

    // A length and so many bytes, which stand at the start of the room then.
    fn string<'a>(&mut self, room: &'a mut [u8]) -> Result<&'a [u8], Unreadable> {
        let n = self.number()?;
        if room.len() < n {
            return Err(Unreadable::TooLong);
        }
        let part = &mut room[..n];
        self.fill(part)?;
        Ok(part)
    }

    // The rest of a list that started.
    pub(crate) fn list<'a>(
        &mut self,
        script: &'a mut [u8],
        text: &'a mut [u8],
    ) -> Result<Stored<'a>, Unreadable> {
        let script = self.string(script)?;
        let text = self.string(text)?;
        Ok(Stored { script, text })
    }
}
