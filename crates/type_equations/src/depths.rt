//! How deep the types of settled numbers are.
ghost use Rattle.std.specs.Prelude.{◌≡◌, ◌+◌, set, length, true, IfOk};
ghost use Rattle.type_equations.specs.steps.Deepening as spec;

use crate::store::Entry;
use std::alloc::{AllocError, Global};
use std::marker::Model;

/// How deep a type of a solution is at most.
const DEEPEST: u16 = 1000;

/// For each number the depth of its type, in products and power sets, where 1,001 stands for all that are more.
/// Contracts see the list of the depths.
#[derive(Drop)]
pub(crate) struct Depths {
    depths: Vec<u16>,
}

impl Model for Depths {
    ghost use Rattle.std.specs.Prelude.{ℕ, List};

    ghost Value = { List ℕ };

    ghost view = { λ d. d.depths.items };
}

impl Depths {
    /// So many depths. The only error is want of memory.
    pub(crate) fn unknown(alloc: Global, total: u32) -> Result<Depths, AllocError>
        ensures { IfOk result (λ depths. length depths ≡ total) }
    {
        let mut depths = Vec::new(alloc);
        for _number in 0..total {
            depths.push(0)?;
        }
        Ok(Depths { depths })
    }

    /// The number's depth.
    fn depth(&self, number: u32) -> u16
        ensures { result ≡ spec.depth_at self.now number }
    {
        match self.depths.as_slice().get(number as usize) {
            Some(depth) => *depth,
            None => 0,
        }
    }

    /// Gives the number another depth. Where there is no such number, nothing changes.
    pub(crate) fn put(&mut self, number: u32, depth: u16)
        ensures { self.new ≡ set self.old number depth }
    {
        if let Some(place) = self.depths.get_mut(number as usize) {
            *place = depth;
        }
    }

    /// Whether the numbers below that many have depths up to 1,000.
    pub(crate) fn are_low(&self, asked: u32) -> bool
        ensures { result ≡ true → spec.AreLow asked self.now }
    {
        for number in 0..asked {
            if self.depth(number) > DEEPEST {
                return false;
            }
        }
        true
    }
}

/// The depth of what has a part of this depth.
fn above(depth: u16) -> u16
    ensures { result ≡ spec.capped (depth + 1) }
{
    if depth > DEEPEST {
        DEEPEST + 1
    } else {
        depth + 1
    }
}

/// The depth of a type with the entry, by those of its parts.
pub(crate) fn depth_by(depths: &Depths, entry: Entry) -> u16
    ensures { result ≡ spec.depth_by depths.now entry }
{
    match entry {
        Entry::Free | Entry::Integer | Entry::Boolean | Entry::Carrier(_) => 0,
        Entry::Link(other) => depths.depth(other),
        Entry::Product(first, second) => { above(depths.depth(first).max(depths.depth(second))) }
        Entry::Power(members) => above(depths.depth(members)),
    }
}
