ghost use Rattle.std.specs.Prelude.{◌≡◌, set, IfOk};
ghost use Rattle.type_equations.specs.steps.Settling as spec;

use std::alloc::{AllocError, Global};
use std::marker::Model;

/// How far a number is settled.
#[derive(Clone, Copy, Debug, PartialEq, Eq)]
pub(crate) enum Mark {
    Fresh,
    /// Its parts are being settled.
    Begun,
    /// It has one type in all solutions.
    Fixed,
    /// It has several types.
    Loose,
}

/// A mark for each number. Contracts see the list of the marks.
#[derive(Drop)]
pub(crate) struct Marks {
    marks: Vec<Mark>,
}

impl Model for Marks {
    ghost use Rattle.std.specs.Prelude.{List};
    ghost use Rattle.type_equations.specs.declared.marks.Mark.{Mark};

    ghost Value = { List Mark };

    ghost view = { λ m. m.marks.items };
}

impl Marks {
    /// So many fresh numbers. The only error is want of memory.
    pub(crate) fn fresh(alloc: Global, total: u32) -> Result<Marks, AllocError>
        ensures { IfOk result (λ marks. spec.AreFresh total marks) }
    {
        let mut marks = Vec::new(alloc);
        for _number in 0..total {
            marks.push(Mark::Fresh)?;
        }
        Ok(Marks { marks })
    }

    /// The number's mark.
    pub(crate) fn mark(&self, number: u32) -> Mark
        ensures { result ≡ spec.mark_at self.now number }
    {
        match self.marks.as_slice().get(number as usize) {
            Some(mark) => *mark,
            None => Mark::Fresh,
        }
    }

    /// Gives the number another mark. Where there is no such number, nothing changes.
    pub(crate) fn put(&mut self, number: u32, mark: Mark)
        ensures { self.new ≡ set self.old number mark }
    {
        if let Some(place) = self.marks.get_mut(number as usize) {
            *place = mark;
        }
    }
}
