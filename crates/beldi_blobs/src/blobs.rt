// The trait of an ordered map from bytes to bytes.
ghost use Rattle.std.specs.Prelude.{Option};
ghost use Rattle.beldi_blobs.specs.BlobEntries.{Entries};
ghost use Rattle.beldi_blobs.specs.BlobCalls.{Tells, Gets, Puts, Removes, Nexts};

use crate::entry::Entry;
use crate::error::BlobErr;

/// An ordered map from bytes to bytes, in dictionary order of the keys. After an error the entries are as before.
pub trait Blobs {
    /// Its entries, where it tells them.
    ghost entries: { Self → Option Entries };

    /// The value at the key.
    fn get(&mut self, key: &[u8]) -> Result<Option<Vec<u8>>, BlobErr>
        ensures { Tells (entries self.old) (entries self.new) (λ m n. Gets key.now m n result) };

    /// Sets the value at the key.
    fn put(&mut self, key: &[u8], value: &[u8]) -> Result<(), BlobErr>
        ensures { Tells (entries self.old) (entries self.new) (λ m n. Puts key.now value.now m n result) };

    /// Removes the entry at the key, where there is one.
    fn remove(&mut self, key: &[u8]) -> Result<(), BlobErr>
        ensures { Tells (entries self.old) (entries self.new) (λ m n. Removes key.now m n result) };

    /// The first entry whose key is greater, and None exactly where there is none. So a first entry under the empty key
    /// is passed over.
    fn next(&mut self, key: &[u8]) -> Result<Option<Entry>, BlobErr>
        ensures { Tells (entries self.old) (entries self.new) (λ m n. Nexts key.now m n result) };
}
