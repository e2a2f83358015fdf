// What is known of a program before the faults of its names are found.

ghost use Rattle.std.specs.Prelude.{◌≡◌};
ghost use Rattle.je_scopes.specs.Settled.{settled};
ghost use Rattle.name_sites.specs.View.{source_of};
ghost use Rattle.name_lookup.specs.View.{known_of};
ghost use Rattle.name_lookup.specs.Table.{AreHeadersOf};

use name_lookup::Headers;
use name_sites::Sites;
use std::alloc::Global;

/// The classes of a program, and the classes that their headers name.
#[derive(Clone, Copy)]
pub struct Program<'a> {
    pub alloc: Global,
    pub sites: &'a Sites<'a>,
    pub headers: &'a Headers,
    ghost fits: { AreHeadersOf (source_of sites.now) headers.now },
    ghost settled: { settled (source_of sites.now) ≡ known_of headers.now },
}

impl<'a> Program<'a> {
    ghost use Rattle.std.specs.Prelude.{◌≡◌};
    ghost use Rattle.je_scopes.specs.Settled.{settled};
    ghost use Rattle.name_sites.specs.View.{source_of};
    ghost use Rattle.name_lookup.specs.View.{known_of};
    ghost use Rattle.name_lookup.specs.Table.{AreHeadersOf};
    ghost use Rattle.type_faults.specs.Program.{source_in};

    /// The program of these classes, whose headers are settled.
    pub fn new(alloc: Global, sites: &'a Sites<'a>, headers: &'a Headers) -> Program<'a>
        requires fits { AreHeadersOf (source_of sites.now) headers.now }
        requires settled { settled (source_of sites.now) ≡ known_of headers.now }
        ensures { source_in result ≡ source_of sites.now }
    {
        Program {
            alloc,
            sites,
            headers,
        }
    }
}
