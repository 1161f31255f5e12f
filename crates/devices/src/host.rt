//! Where a command's inputs come from, and where it shows how far it is.

use crate::bytes::Source;
use crate::progress::Visibility;
use common::Gate;

/// Why an input was not given.
#[derive(Clone, Copy, PartialEq, Eq)]
pub enum InputError {
    /// There is no input of this name, or it can't be opened.
    CannotOpen,
    /// There is no memory for it.
    OutOfMemory,
}

/// What became of the inputs that a host gave.
#[derive(Clone, Copy, Drop, PartialEq, Eq)]
pub struct Tally {
    /// One was given and not yet taken back.
    pub is_lent: bool,
    /// A read of one that was taken back failed.
    pub has_failed: bool,
    /// One was taken back before its end was read, or not before the next was given.
    pub is_unended: bool,
}

impl Tally {
    ghost use Rattle.std.specs.Prelude.{◌≡◌};
    ghost use Rattle.devices.specs.Host.{lent, taken_back};

    /// An input is given.
    pub fn lend(&mut self)
        ensures { self.new ≡ lent self.old }
    {
        self.is_unended = self.is_lent || self.is_unended;
        self.is_lent = true;
    }

    /// An input is taken back, whose end was read or not, and of which a read failed or none did.
    pub fn take_back(&mut self, is_ended: bool, has_failed: bool)
        ensures { self.new ≡ taken_back self.old is_ended has_failed }
    {
        self.is_lent = false;
        self.has_failed = has_failed || self.has_failed;
        self.is_unended = !is_ended || self.is_unended;
    }
}

/// Gives inputs by name and takes them back; shows how far work is, and which line of an input is refused.
pub trait Host {
    ghost use Rattle.std.specs.Prelude.{◌≡◌, ◌∷◌, [], ℕ, List, Option, None, IfErr, IfOk, false};
    ghost use Rattle.std.specs.Io.KnownBytes.{Keeps};
    ghost use Rattle.devices.specs.Host.{Notes, HostLog, lent, taken_back};

    /// An opened input, which is read from its first byte to its last.
    type Input: Source + Drop;

    /// The gate that hears of pieces of work.
    type Progress: Gate + Drop;

    /// The bytes that the input of each name gives, where they are known.
    ghost bytes: { Self → List ℕ → Option (List ℕ) } = { λ _ _. None };

    /// The names that inputs were asked for by, where they are known, and what became of the inputs that were given.
    ghost log: { Self → HostLog };

    /// The input of a name, opened, of which nothing is read.
    fn input(&mut self, name: &str) -> Result<Self::Input, InputError>
        ensures given { IfOk result (λ input. Keeps (bytes self.old name.now) (Self.Input.left input)) }
        ensures unread { IfOk result (λ input. Self.Input.is_ended input ≡ false) }
        ensures unfailed { IfOk result (λ input. Self.Input.read_failed input ≡ false) }
        ensures lent { IfOk result (λ _. (log self.new).tally ≡ lent (log self.old).tally) }
        // What is known can be opened, unless out of memory.
        ensures error { IfErr result (λ error. error ≡ InputError.CannotOpen
            → bytes self.old name.now ≡ None) }
        ensures unlent { IfErr result (λ _. (log self.new).tally ≡ (log self.old).tally) }
        ensures asked { Notes (log self.old).asked (log self.new).asked (name.now ∷ []) }
        // To open an input changes none.
        ensures kept { bytes self.new ≡ bytes self.old };

    /// Takes an input back that it gave.
    fn take_back(&mut self, input: Self::Input)
        ensures tally { (log self.new).tally
            ≡ taken_back (log self.old).tally (Self.Input.is_ended input) (Self.Input.read_failed input) }
        ensures asked { (log self.new).asked ≡ (log self.old).asked }
        ensures kept { bytes self.new ≡ bytes self.old };

    /// A gate that shows the progress of this many trials, or of recordings whose number is not known, unless it is
    /// hidden.
    fn progress(&self, trials: Option<usize>, visibility: Visibility) -> Self::Progress;

    /// Takes the line of an input that is refused, as a person is shown it.
    fn refuse(&mut self, line: String)
        ensures log { log self.new ≡ log self.old }
        ensures kept { bytes self.new ≡ bytes self.old };
}
