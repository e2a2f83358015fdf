// Reads headers, until all are known that ever are.

ghost use Rattle.std.specs.Prelude.{◌≡◌, ◌<◌, ◌≤◌, ℕ, true, false, IfOk, OnOk, None, length};
ghost use Rattle.je_scopes.specs.Laws.{HasLibrary, header_of};
ghost use Rattle.je_scopes.specs.Settled.{settled};
ghost use Rattle.name_sites.specs.View.{source_of};
ghost use Rattle.name_lookup.specs.View.{known_of, unknown_count};
ghost use Rattle.name_lookup.specs.Table.{AreHeadersOf, AreSettling, AllWait};

use crate::headers::Headers;
use crate::reading::Reading;
use je_base::Memory;
use je_core::ClassId;
use name_sites::Sites;
use std::alloc::Global;

/// Reads the headers of all classes. One that waits for itself, over others or not, stays unknown.
pub fn settle(alloc: Global, sites: &Sites) -> Result<Headers, Memory>
    requires { HasLibrary (source_of sites.now) }
    ensures fits { IfOk result (AreHeadersOf (source_of sites.now)) }
    ensures settled { IfOk result (λ h. settled (source_of sites.now) ≡ known_of h) }
{
    let mut headers = Headers::unknown(alloc, sites)?;
    while headers.read_once(alloc, sites)? {}
    Ok(headers)
}

impl Headers {
    // Reads each header that isn't known yet, in the order of the classes. Whether one of them came to be known.
    fn read_once(&mut self, alloc: Global, sites: &Sites) -> Result<bool, Memory>
        requires library { HasLibrary (source_of sites.now) }
        requires settling { AreSettling (source_of sites.now) self.old }
        ensures settling { OnOk result (AreSettling (source_of sites.now) self.new) }
        ensures fewer { IfOk result
            (λ changed. changed ≡ true → unknown_count self.new < unknown_count self.old) }
        ensures rest { IfOk result (λ changed. changed ≡
            false → AllWait (source_of sites.now) (known_of self.new)
            (length (source_of sites.now).sites)) }
    {
        let mut changed = false;
        for at in 0..sites.len() {
            if self.read_header(alloc, sites, ClassId(at as u32))? {
                changed = true;
            }
        }
        Ok(changed)
    }

    // Reads the header of a class, if it isn't known yet. Whether it came to be known.
    fn read_header(&mut self, alloc: Global, sites: &Sites, class: ClassId) -> Result<bool, Memory>
        requires library { HasLibrary (source_of sites.now) }
        requires settling { AreSettling (source_of sites.now) self.old }
        requires within { class.0 < length (source_of sites.now).sites }
        ensures settling { OnOk result (AreSettling (source_of sites.now) self.new) }
        ensures fewer { IfOk result
            (λ changed. changed ≡ true → unknown_count self.new < unknown_count self.old) }
        ensures same { IfOk result (λ changed. changed ≡ false → self.new ≡ self.old) }
        ensures waits { IfOk result (λ changed. changed ≡ false → known_of self.old class.0 ≡
            None → header_of (source_of sites.now) (known_of self.old) class.0 ≡ None) }
    {
        if self.known(class).is_some() {
            return Ok(false);
        }
        match self.read(alloc, sites, class)? {
            Reading::Waits(_) => Ok(false),
            Reading::Supers(supers) => {
                self.settle(class, supers);
                Ok(true)
            }
        }
    }
}
