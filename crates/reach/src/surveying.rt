// The objects of each sort, as sets.
ghost use Rattle.std.specs.Prelude.{◌≡◌, ◌≤◌};
ghost use Rattle.reach.specs.declared.Policy.{Policy};
ghost use Rattle.reach.specs.Words.{SetOf};
ghost use Rattle.reach.specs.Surveys.{Among, MasksOf};

use crate::sets::{joined, mark};
use crate::{Masks, Policy, Sort};

// The objects of each sort among 32, as sets.
#[derive(Clone, Copy)]
struct Half {
    groups: u32,
    users: u32,
    targets: u32,
}

// The objects of each sort among the 32 from a number on, in one pass. The compiler works four sets of 32 bits at once, and of 64
// bits two: halves take a quarter of the time.
fn half_of(sorts: &[u8; 64], from: usize) -> Half
    requires { from ≤ 32 }
    ensures { SetOf result.groups (Among sorts.now from 1) × SetOf result.users (Among sorts.now from 2) ×
        SetOf result.targets (Among sorts.now from 3) }
{
    let mut groups: u32 = 0;
    let mut users: u32 = 0;
    let mut targets: u32 = 0;
    for i in 0..32 {
        let sort = sorts[from + i];
        groups |= mark(sort == Sort::Group as u8, i);
        users |= mark(sort == Sort::User as u8, i);
        targets |= mark(sort == Sort::Target as u8, i);
    }
    Half {
        groups,
        users,
        targets,
    }
}

// The objects of each sort.
pub fn masks_of(sorts: &[u8; 64]) -> Masks
    ensures { (p : Policy) → p.sorts ≡ sorts.now → MasksOf p result }
{
    let low = half_of(sorts, 0);
    let high = half_of(sorts, 32);
    let groups = joined(low.groups, high.groups);
    let users = joined(low.users, high.users);
    let targets = joined(low.targets, high.targets);
    Masks {
        objects: groups | users | targets,
        groups,
        users,
        targets,
    }
}

impl Policy {
    // The objects of each sort.
    pub fn masks(self) -> Masks
        ensures { MasksOf self result }
    {
        let sorts = self.sorts;
        masks_of(&sorts)
    }
}
