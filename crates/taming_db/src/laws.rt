//! Laws of the definitions.

ghost use Rattle.std.specs.Prelude.{◌≡◌, ℕ, List};
ghost use Rattle.taming_db.specs.Rows.{Found};
ghost use Rattle.taming_db.specs.Tame.{WhatIsEnabledIsTame};
ghost use Rattle.taming_db.specs.Taming.{Says};

/// A text says one thing alone: its rows, or its first fault.
#[tactic(auto, using(crate::proofs::OneSaying::says_one))]
pub fn what_is_said_is_one()
    ensures { (bytes : List ℕ) (one other : Found) → Says bytes one → Says bytes other →
        one ≡ other }
{}

/// Each member that a text enables is tame.
#[tactic(auto, using(crate::proofs::Tame::enabled_is_tame))]
pub fn what_is_enabled_is_tame()
    ensures { WhatIsEnabledIsTame }
{}
