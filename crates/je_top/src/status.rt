// How a call of the program ended.

ghost use Rattle.std.specs.Prelude.{◌≡◌};

/// How a call of the program ended, with the number that the system is told.
#[derive(Clone, Copy, Debug, PartialEq, Eq)]
pub enum Status {
    /// The command was carried out to its end.
    Ok = 0,
    /// A source has a fault.
    Refused = 1,
    /// The words of the command line are outside the grammar.
    Usage = 2,
    /// A file is there, and reading it failed.
    ReadFault = 3,
    /// The text couldn't be written.
    WriteFault = 4,
    /// Want of memory.
    Memory = 5,
    /// A device failed in one of the turns.
    DeviceFailed = 6,
    /// The taming text has a fault.
    TamingRefused = 7,
    /// The script has a fault.
    ScriptRefused = 8,
    /// The initialisation of the classes threw an exception or spent its units.
    InitFailed = 9,
    /// A file isn't there.
    NotThere = 10,
    /// A file has more than `FILE_LIMIT` bytes.
    TooLong = 11,
    /// The program is accepted, but its first class has no `main`, or its core program doesn't fit.
    NotBuilt = 12,
}

impl Status {
    ghost use Rattle.je_top.specs.Status.{number_of};

    /// The number with which the program ends, 0 to 12.
    pub fn number(self) -> u8
        ensures { result ≡ number_of self }
    {
        self as u8
    }
}
