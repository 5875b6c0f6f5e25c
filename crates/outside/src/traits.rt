//! The two traits through which a program reaches what is outside it.
ghost use Rattle.std.specs.Prelude.{◌≡◌, ℕ, ◌+◌, ◌≤◌, List, length, Option, IfOk, IfSome};
ghost use Rattle.outside.specs.Faults.{CountsFaults};
ghost use Rattle.outside.specs.Files.{Files, ReadsAt, Writes, PutsBytes};

/// A read, a write or a put failed. The fault was counted by what failed.
#[derive(Clone, Copy, Debug, PartialEq, Eq)]
pub struct Failed;

/// Files by name. A desk may tell what each name holds. It counts its calls, and its faults in
/// reads and in writes. No count of faults falls, and one at 2^64 - 1 always counts as risen.
pub trait Desk {
    // What each name holds; None where the desk doesn't tell.
    ghost contents: { Self → Option Files };

    // How many calls of either method there were.
    ghost calls: { Self → ℕ };

    // How many reads failed.
    ghost read_faults: { Self → ℕ };

    // How many writes failed.
    ghost write_faults: { Self → ℕ };

    /// Reads the bytes of a file from byte `at` on into the front of the buffer, and answers how
    /// many: at most the buffer's length, and 0 only at or past the file's end or for an empty
    /// buffer. None: there is no such file. Failed: the count of faults in reads rose, and the
    /// buffer may hold anything.
    fn read_at(&mut self, name: &str, at: u64, buffer: &mut [u8]) -> Result<Option<usize>, Failed>
        ensures bound { IfOk result (λ read. IfSome read (λ n. n ≤ length buffer.new)) }
        ensures told { IfOk result (λ read. IfSome (contents self.old) (λ files.
            ReadsAt files name.now at buffer.new read)) }
        ensures cause { CountsFaults (read_faults self.old) (read_faults self.new) result }

        ensures counted { calls self.new ≤ calls self.old + 1 }
        ensures contents { contents self.new ≡ contents self.old }
        ensures write_faults { write_faults self.new ≡ write_faults self.old };

    /// Makes a name hold exactly these bytes. Failed: the count of faults in writes rose, and the
    /// name holds what it held or a prefix of the bytes. Other names stay as they are.
    fn write(&mut self, name: &str, bytes: &[u8]) -> Result<(), Failed>
        ensures told { Writes name.now bytes.now (contents self.old) (contents self.new) result }
        ensures cause { CountsFaults (write_faults self.old) (write_faults self.new) result }

        ensures counted { calls self.new ≤ calls self.old + 1 }
        ensures read_faults { read_faults self.new ≡ read_faults self.old };
}

/// One stream of output. A sink may tell the bytes that it has taken. It counts its calls and its
/// faults. The count of faults never falls, and at 2^64 - 1 it always counts as risen.
pub trait Sink {
    // The bytes taken so far; None where the sink doesn't tell.
    ghost taken: { Self → Option (List ℕ) };

    // How many calls there were.
    ghost calls: { Self → ℕ };

    // How many puts failed.
    ghost faults: { Self → ℕ };

    /// Appends these bytes to the stream. Failed: the count of faults rose, and a prefix of the
    /// bytes was appended.
    fn put(&mut self, bytes: &[u8]) -> Result<(), Failed>
        ensures told { PutsBytes bytes.now (taken self.old) (taken self.new) result }
        ensures cause { CountsFaults (faults self.old) (faults self.new) result }
        ensures counted { calls self.new ≤ calls self.old + 1 };
}
