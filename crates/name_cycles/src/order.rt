// An order in which classes come behind those above them.

use je_base::Memory;
use je_core::ClassId;
use std::alloc::Global;

/// Classes that are still to come, each behind all that are above it. Those on a cycle, and those below one, don't come.
#[derive(Drop)]
pub(crate) struct Order {
    below: Vec<Vec<ClassId>>,
    waiting: Vec<usize>,
    ready: Vec<ClassId>,
}

impl Order {
    /// Of so many classes, of which none is to come yet.
    pub(crate) fn new(alloc: Global, count: usize) -> Result<Order, Memory> {
        let mut below = Vec::new(alloc);
        let mut waiting = Vec::new(alloc);
        for _ in 0..count {
            below.push(Vec::new(alloc))?;
            waiting.push(0)?;
        }
        Ok(Order {
            below,
            waiting,
            ready: Vec::new(alloc),
        })
    }

    /// A class that comes behind these.
    pub(crate) fn add(&mut self, class: ClassId, above: &[ClassId]) -> Result<(), Memory> {
        for other in above {
            if let Some(below) = self.below.get_mut(other.0 as usize) {
                below.push(class)?;
            }
        }
        if let Some(waiting) = self.waiting.get_mut(class.0 as usize) {
            *waiting = above.len();
        }
        if above.is_empty() {
            self.ready.push(class)?;
        }
        Ok(())
    }

    /// The next class.
    pub(crate) fn next(&mut self) -> Result<Option<ClassId>, Memory> {
        let Some(class) = self.ready.pop() else {
            return Ok(None);
        };
        if let Some(below) = self.below.get(class.0 as usize) {
            for lower in below {
                if let Some(waiting) = self.waiting.get_mut(lower.0 as usize) {
                    *waiting = waiting.saturating_sub(1);
                    if *waiting == 0 {
                        self.ready.push(*lower)?;
                    }
                }
            }
        }
        Ok(Some(class))
    }
}
