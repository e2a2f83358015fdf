// A device, by its kind, its state where that is told, and its count of faults.

ghost use Rattle.std.specs.Prelude.{◌≡◌, ◌≤◌, ℕ, option_map, OnOk, IfOk, OnErr, IfSome, IsErrOf, IsTrue};
ghost use Rattle.std.specs.declared.option.Option.{Option};
ghost use Rattle.planned_faults.specs.Counts.{Rose};
ghost use Rattle.caps.specs.declared.request.Kind.{Kind as TheKind};
ghost use Rattle.caps.specs.States.{State};
ghost use Rattle.caps.specs.Table.{answer_in, state_after};
ghost use Rattle.caps.specs.Forms.{has_form, kind_asked};

use crate::request::{DeviceAnswer, Kind, Request};
use thiserror::Error;

/// Why a device gave no answer.
#[derive(Clone, Copy, Debug, PartialEq, Eq, Error)]
pub enum DeviceFault {
    /// What stands behind it failed.
    #[error("the device failed")]
    Failed,
    /// Want of memory.
    #[error("out of memory")]
    Memory,
}

/// A device. Its kind is fixed. A count of faults says when it failed, and never falls. A device tells its state, or it doesn't.
pub trait Device: Drop {
    /// The kind.
    ghost kind: { Self → TheKind };

    /// The state, where that is told.
    ghost told: { Self → Option State };

    /// The count of faults.
    ghost faults: { Self → ℕ };

    /// No call fails any more.
    ghost is_calm: { Self → Type 0 };

    /// The kind.
    fn kind(&self) -> Kind
        ensures { result ≡ kind self.now };

    /// Asks the device. After a refusal and after each fault its state is as before.
    fn ask(&mut self, request: &Request) -> Result<DeviceAnswer, DeviceFault>
        requires { kind_asked request.now ≡ kind self.old }
        ensures kind { kind self.new ≡ kind self.old }

        // What it answers, and the state after that.
        ensures answer { IfOk result (λ answer. IfSome (told self.old) (λ state.
            answer ≡ answer_in state request.now)) }
        ensures form { IfOk result (λ answer. IsTrue (has_form request.now answer)) }
        ensures state { OnOk result (told self.new ≡
            option_map (state_after request.now) (told self.old)) }
        ensures err { OnErr result (told self.new ≡ told self.old) }

        // When the count of faults rises.
        ensures failed { IsErrOf result DeviceFault.Failed → Rose (faults self.old)
            (faults self.new) }
        ensures ok_count { OnOk result (faults self.new ≡ faults self.old) }
        ensures memory_count { IsErrOf result DeviceFault.Memory →
            faults self.new ≡ faults self.old }
        ensures never_falls { faults self.old ≤ faults self.new }
        ensures calm { is_calm self.old → is_calm self.new × (faults self.new ≡ faults self.old) };
}
