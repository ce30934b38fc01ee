//! Bytes under paths, in memory.
ghost use Rattle.std.specs.Prelude.{◌≡◌, ◌<◌, ◌-◌, length, option_copied};
ghost use Rattle.pssm_base.specs.Memory.{files_of, bytes_under, passed_on};
ghost use Rattle.pssm_base.specs.Reading.{IsFront};

// The bytes of the first file that has the path.
pub(crate) fn find<'a>(files: &'a [(String, Vec<u8>)], path: &str) -> Option<&'a [u8]>
    ensures { option_copied result ≡ bytes_under (files_of files.now) path.now }
{
    for (name, bytes) in files {
        if name.as_str() == path {
            return Some(bytes.as_slice());
        }
    }
    None
}

// Copies what stands from the offset on to the front of `into`: as many bytes as both have, and at most `most`.
pub(crate) fn copy_front(bytes: &[u8], from: u64, most: usize, into: &mut [u8]) -> usize
    requires some { 0 < most }
    requires room { 0 < length into.old }
    ensures count { result ≡ passed_on most (length into.old) (length bytes.now - from) }
    ensures front { IsFront bytes.now from result into.new }
{
    if from >= bytes.len() as u64 {
        return 0;
    }
    let (_, rest) = bytes.split_at(from as usize);
    let count = most.min(into.len()).min(rest.len());
    let (front, _) = rest.split_at(count);
    let (room, _) = into.split_at_mut(count);
    room.copy_from_slice(front);
    count
}
