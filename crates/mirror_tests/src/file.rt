//! A file in memory on a disk that fails from a given call on.
ghost use Rattle.std.specs.Prelude.{◌≡◌, true, false};

/// The most bytes of a file.
const MOST: usize = 64;

/// A file of at most 64 bytes.
#[derive(Drop)]
pub struct File {
    bytes: [u8; MOST],
    size: usize,
    calls: u64,
    lost: bool,
}

impl File {
    /// A file of these bytes, on a disk that makes so many calls and then fails.
    pub fn of(bytes: &[u8], calls: u64) -> File
        ensures { result.lost ≡ false }
    {
        let mut file = File {
            bytes: [0; MOST],
            size: 0,
            calls,
            lost: false,
        };
        file.put(0, bytes);
        file
    }

    /// Whether a call fails: the disk is lost from then on.
    pub fn fails(&mut self) -> bool
        ensures fails { self.old.lost ≡ true → result ≡ true }
        ensures loses { result ≡ true → self.new.lost ≡ true }
        ensures stays { self.old.lost ≡ true → self.new.lost ≡ true }
    {
        if self.lost || self.calls == 0 {
            self.lost = true;
            return true;
        }
        self.calls -= 1;
        false
    }

    /// How many bytes there are.
    pub fn size(&self) -> u64 {
        self.size as u64
    }

    /// The bytes from an offset on, with zeros past the end.
    pub fn take(&self, offset: u64, buf: &mut [u8]) {
        let mut next = offset;
        for byte in buf {
            *byte = self.byte_at(next);
            next = next.saturating_add(1);
        }
    }

    /// The byte at an offset, or 0 past the end.
    pub fn byte_at(&self, offset: u64) -> u8 {
        if offset < MOST as u64 {
            self.bytes[offset as usize]
        } else {
            0
        }
    }

    /// Writes from an offset on, as far as there is room.
    pub fn put(&mut self, offset: u64, bytes: &[u8])
        ensures { self.new.lost ≡ self.old.lost }
    {
        let mut next = offset;
        for byte in bytes {
            if next < MOST as u64 {
                self.bytes[next as usize] = *byte;
                self.size = self.size.max(next as usize + 1);
            }
            next = next.saturating_add(1);
        }
    }
}
