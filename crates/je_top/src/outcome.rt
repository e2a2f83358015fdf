// What a call comes to.

ghost use Rattle.std.specs.Prelude.{◌≡◌};
ghost use Rattle.je_top.specs.Outcome.{outcome_view, status_of};

use crate::status::Status;
use host_text::Finding;
use taming_db::TamingRule;

/// What a call comes to, by which it has a status and a text.
#[derive(Drop)]
pub enum Outcome<'a> {
    /// The words are outside the grammar.
    Usage,
    /// No file of this name is there.
    Missing {
        name: &'a str,
    },
    /// The file of this name has more than `FILE_LIMIT` bytes.
    TooLong {
        name: &'a str,
    },
    /// Reading the file of this name failed.
    Failed {
        name: &'a str,
    },
    /// The taming text has this fault in this table, which count from 1; 0 is the text as a whole.
    TamingRefused {
        table: usize,
        rule: TamingRule,
    },
    /// The program keeps all rules.
    Accepted,
    /// The program in these files has these findings.
    Refused {
        sources: &'a [String],
        found: Vec<Finding>,
    },
    /// `main` replied with this int.
    Replied {
        value: i32,
    },
    /// `main` threw an exception.
    Thrown,
    /// `main` spent its units.
    Spent,
    /// The initializers of the class of this name threw an exception.
    InitThrown {
        class: Vec<u8>,
    },
    /// The initializers of the class of this name were the innermost when the units of the load were spent.
    InitSpent {
        class: Vec<u8>,
    },
    /// The program in the file of this name, or in the files from it on, is accepted, but isn't one that is built: its
    /// first class has no `main`, or its core program doesn't fit.
    NotBuilt {
        name: &'a str,
    },
}

impl<'a> Outcome<'a> {
    /// The status that tells of it.
    pub fn status(&self) -> Status
        ensures { result ≡ status_of (outcome_view self.now) }
    {
        match self {
            Outcome::Usage => Status::Usage,
            Outcome::Missing { .. } => Status::NotThere,
            Outcome::TooLong { .. } => Status::TooLong,
            Outcome::Failed { .. } => Status::ReadFault,
            Outcome::TamingRefused { .. } => Status::TamingRefused,
            Outcome::Refused { .. } => Status::Refused,
            Outcome::NotBuilt { .. } => Status::NotBuilt,
            Outcome::InitThrown { .. } | Outcome::InitSpent { .. } => Status::InitFailed,
            Outcome::Accepted | Outcome::Replied { .. } | Outcome::Thrown | Outcome::Spent => {
                Status::Ok
            }
        }
    }
}
