//! What commands see of the world around them.

ghost use Rattle.std.specs.Prelude.{◌≡◌, ℕ, Bool, List, Option, IfOk, IsErr};
ghost use Rattle.command_streams.specs.Sources.{Sources};

use std::io;
use std::io::{Read, Write};

/// What commands read, standard input and files by their names, and the files that they make. A test may stand in for the system.
///
/// What a host's clauses say of its bytes is proved of each host but the system's own, of whose bytes no contract knows. So what a proof
/// over any host rests on there is that the system's readers give what its standard input and its files hold, and that a file which it
/// makes is empty at first and holds then what was written.
pub trait Host {
    type Input: Read + Drop;

    type File: Read + Drop;

    type Created: Write + Drop;

    // What standard input holds, and the file with each name, where that is known.
    ghost sources: { Self → Sources };

    // That the file with this name can't be opened, where that is known.
    ghost lacks: { Self → List ℕ → Type 0 };

    // What a file holds that was just created, where that is known: nothing.
    ghost blank: { Self → Option (List ℕ) };

    // What the file with each name holds that was created and closed, where that is known.
    ghost made: { Self → List ℕ → Option (List ℕ) };

    // That no file with this name can be created, where that is known.
    ghost bars: { Self → List ℕ → Type 0 };

    // What it may say to whether two names are of one file.
    ghost says_one: { Self → (first second : List ℕ) → Bool → Type 0 };

    /// Standard input.
    fn input(&mut self) -> Self::Input
        ensures { Self.Input.remaining result ≡ (sources self.old).input };

    /// The file with this name, to be read.
    fn open(&self, name: &str) -> io::Result<Self::File>
        ensures bytes { IfOk result (λ file. Self.File.remaining file ≡ (sources self.now).file name.now) }
        ensures lacking { lacks self.now name.now → IsErr result };

    /// The file with this name, to be written. It is made, or emptied where there is one.
    fn create(&mut self, name: &str) -> io::Result<Self::Created>
        ensures blank { IfOk result (λ file. Self.Created.contents file ≡ blank self.old) }
        ensures barred { bars self.old name.now → IsErr result };

    /// Whether the two names are known to be of one file that is there.
    fn is_one_file(&self, first: &str, second: &str) -> bool
        ensures { says_one self.now first.now second.now result };

    /// Whether what is written to standard output is seen on a terminal.
    fn is_terminal(&self) -> bool;

    /// Lets a file go that was created with this name.
    fn close(&mut self, name: &str, file: Self::Created)
        ensures { made self.new name.now ≡ Self.Created.contents file };
}
