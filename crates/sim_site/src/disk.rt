//! The disk: the file, that of the last sync, and what was written since then.
ghost use Rattle.std.specs.Prelude.{ℕ, ◌≡◌, ◌<◌, ◌≤◌, ◌+◌, ◌-◌, ◌++◌, length, get_or, min, replicate, IfOk, OnOk, if◌then◌else◌};
ghost use Rattle.gw_site.specs.Outside.{Outside, nothing_yet, outside_after, overwrite};
ghost use Rattle.gw_site.specs.Image.{covers, is_covered, junked_from};
ghost use Rattle.gw_site.specs.declared.turn.Turn.TheVariants.{Crash, Synced, Wrote};
ghost use Rattle.gw_script.specs.site.Hazards.{crash_file};
ghost use Rattle.sim_script.specs.Values.{image_value};
ghost use Rattle.sim_site.specs.Ranges.{range_value, ranges_value};

use sim_script::ImageKind;
use std::alloc::{AllocError, Global};

/// A range of bytes that was written.
#[derive(Clone, Copy)]
pub(crate) struct Written {
    pub(crate) offset: usize,
    pub(crate) size: usize,
}

/// The disk.
#[derive(Drop)]
pub(crate) struct Disk {
    pub(crate) file: Vec<u8>,
    /// The file of the last sync or power failure.
    pub(crate) stable: Vec<u8>,
    /// What was written since then, oldest first.
    pub(crate) written: Vec<Written>,
}

/// Writes bytes at an offset; a gap is filled with zeros.
fn write_over(file: &mut Vec<u8>, offset: usize, bytes: &[u8]) -> Result<(), AllocError>
    ensures { OnOk result (file.new.items ≡ overwrite file.old.items offset bytes.now) }
{
    reach(file, offset)?;
    let inside = bytes.len().min(file.len() - offset);
    put(file, offset, &bytes[..inside]);
    file.extend_from_slice(&bytes[inside..])
}

/// Fills a file with zeros up to an offset.
fn reach(file: &mut Vec<u8>, offset: usize) -> Result<(), AllocError>
    ensures { OnOk result (file.new.items ≡ file.old.items ++ replicate (offset - length file.old.items) 0) }
{
    if file.len() < offset {
        file.resize(offset, 0)?;
    }
    Ok(())
}

/// Puts bytes over those at an offset.
fn put(file: &mut [u8], offset: usize, bytes: &[u8])
    requires { offset + length bytes.now ≤ length file.old }
    ensures { file.new ≡ overwrite file.old offset bytes.now }
{
    file[offset..offset + bytes.len()].copy_from_slice(bytes);
}

/// Puts one byte over each that was written.
fn put_junk(file: &mut [u8], written: &[Written], junk: u8)
    ensures { file.new ≡ junked_from junk (ranges_value written.now) 0 file.old }
{
    for range in written {
        fill(file, *range, junk);
    }
}

/// Puts one byte over each of a range.
fn fill(file: &mut [u8], range: Written, junk: u8)
    ensures { (i : ℕ) → i < length file.old → get_or file.new i 0 ≡ (if covers i (range_value range) then junk else get_or file.old i 0) }
{
    let end = end_within(range, file.len());
    if range.offset < end {
        file[range.offset..end].fill(junk);
    }
}

/// Takes over from a file of the same length what was written to it.
fn catch_up(stable: &mut [u8], file: &[u8], written: &[Written])
    requires { length stable.old ≡ length file.now }
    ensures { (i : ℕ) → i < length stable.old → get_or stable.new i 0 ≡ (if is_covered (ranges_value written.now) i then get_or file.now i 0 else get_or stable.old i 0) }
{
    for range in written {
        take_over(stable, file, *range);
    }
}

/// Takes over a range from a file of the same length.
fn take_over(stable: &mut [u8], file: &[u8], range: Written)
    requires { length stable.old ≡ length file.now }
    ensures { (i : ℕ) → i < length stable.old → get_or stable.new i 0 ≡ (if covers i (range_value range) then get_or file.now i 0 else get_or stable.old i 0) }
{
    let end = end_within(range, file.len());
    if range.offset < end {
        put(stable, range.offset, &file[range.offset..end]);
    }
}

/// Where a range ends in a file of this size.
fn end_within(range: Written, size: usize) -> usize
    ensures { result ≡ min (range.offset + range.size) size }
{
    range.offset.saturating_add(range.size).min(size)
}

/// A copy of these bytes, where there is memory.
fn copied(alloc: Global, bytes: &[u8]) -> Result<Vec<u8>, AllocError>
    ensures { IfOk result (λ copy. copy.items ≡ bytes.now) }
{
    Vec::from_slice(alloc, bytes)
}

impl Disk {
    ghost use Rattle.sim_site.specs.Disks.{HasDisk};

    /// An empty file.
    pub(crate) fn empty(alloc: Global) -> Disk
        ensures { HasDisk nothing_yet result }
    {
        Disk {
            file: Vec::new(alloc),
            stable: Vec::new(alloc),
            written: Vec::new(alloc),
        }
    }

    /// Writes over what is there and past the file's end.
    pub(crate) fn write(&mut self, offset: usize, bytes: &[u8]) -> Result<(), AllocError>
        ensures { OnOk result ((o : Outside) → HasDisk o self.old → HasDisk (outside_after o (Wrote offset bytes.now)) self.new) }
    {
        write_over(&mut self.file, offset, bytes)?;
        self.written.push(Written {
            offset,
            size: bytes.len(),
        })?;
        Ok(())
    }

    /// The file is that of the last sync.
    pub(crate) fn sync(&mut self) -> Result<(), AllocError>
        ensures { OnOk result ((o : Outside) → HasDisk o self.old → HasDisk (outside_after o Synced) self.new) }
    {
        self.stable.resize(self.file.len(), 0)?;
        catch_up(&mut self.stable, &self.file, &self.written);
        self.written.clear();
        Ok(())
    }

    /// A disk with this file, as a power failure has left it.
    fn holding(alloc: Global, file: Vec<u8>) -> Result<Disk, AllocError>
        ensures { IfOk result (λ disk. (o : Outside) → HasDisk (outside_after o (Crash file.items)) disk) }
    {
        Ok(Disk {
            stable: copied(alloc, &file)?,
            file,
            written: Vec::new(alloc),
        })
    }

    /// A disk with a copy of this file.
    pub(crate) fn of(alloc: Global, file: &[u8]) -> Result<Disk, AllocError>
        ensures { IfOk result (λ disk. (o : Outside) → HasDisk (outside_after o (Crash file.now)) disk) }
    {
        let copy = copied(alloc, file)?;
        Disk::holding(alloc, copy)
    }

    /// What a power failure leaves.
    fn image(&self, alloc: Global, kind: ImageKind) -> Result<Vec<u8>, AllocError>
        ensures { IfOk result (λ image. (o : Outside) → HasDisk o self.now → image.items ≡ crash_file (image_value kind) o) }
    {
        match kind {
            ImageKind::Old => copied(alloc, &self.stable),
            ImageKind::New => copied(alloc, &self.file),
            ImageKind::Junk(junk) => {
                let mut image = copied(alloc, &self.file)?;
                put_junk(&mut image, &self.written, junk);
                Ok(image)
            }
        }
    }

    /// The disk after a power failure that leaves this image.
    pub(crate) fn after_power_failure(
        &self,
        alloc: Global,
        kind: ImageKind,
    ) -> Result<Disk, AllocError>
        ensures { IfOk result (λ disk. (o : Outside) → HasDisk o self.now → HasDisk (outside_after o (Crash (crash_file (image_value kind) o))) disk) }
    {
        let image = self.image(alloc, kind)?;
        Disk::holding(alloc, image)
    }
}
