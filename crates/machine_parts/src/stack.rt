// A stack of frames, the newest first.

ghost use Rattle.std.specs.Prelude.{◌≡◌, [], ◌∷◌, OnOk, OnErr, MatchOption};

use crate::frame::Frame;
use je_core::Memory;
use std::alloc::Global;
use std::marker::Model;

/// Frames, the newest first.
#[derive(Drop)]
pub struct Stack {
    frames: Vec<Frame>,
}

impl Model for Stack {
    ghost use Rattle.std.specs.Prelude.{List, reverse};
    ghost use Rattle.machine_parts.specs.declared.frame.Frame.{Frame};
    ghost use Rattle.je_core.specs.contracts.expr.Expr as expr;
    ghost use Rattle.je_core.specs.contracts.stmt.Stmt as stmt;
    ghost use Rattle.std.specs.Coded.{codes};

    ghost Value = { List Frame };

    ghost coded = { Prim.hlevel (codes, expr.the_row.coded, stmt.the_row.coded) };

    ghost view = { λ s. reverse s.frames.items };
}

impl Stack {
    /// No frames.
    pub fn new(alloc: Global) -> Stack
        ensures { result ≡ [] }
    {
        Stack {
            frames: Vec::new(alloc),
        }
    }

    /// Puts a frame on top.
    pub fn push(&mut self, frame: Frame) -> Result<(), Memory>
        ensures ok { OnOk result (self.new ≡ frame ∷ self.old) }
        ensures err { OnErr result (self.new ≡ self.old) }
    {
        self.frames.push(frame)?;
        Ok(())
    }

    /// Takes the top frame.
    pub fn pop(&mut self) -> Option<Frame>
        ensures { MatchOption result ((self.old ≡ []) × (self.new ≡ []))
            (λ f. self.old ≡ f ∷ self.new) }
    {
        self.frames.pop()
    }
}
