//! Notes without repetition.
ghost use Rattle.std.specs.Prelude.{◌≡◌, [], IfOk};
ghost use Rattle.cbc_query.specs.steps.Distinct as step;

use crate::note::Note;
use sqlite_items::Items;
use std::alloc::{AllocError, Global};
use std::collections::BTreeSet;
use std::marker::Model;

/// Notes without repetition, each where it came first. Contracts see their list.
#[derive(Drop)]
pub(crate) struct Distinct {
    notes: Items<Note>,
    /// The label and the identifier of each note.
    texts: BTreeSet<(String, String)>,
}

impl Model for Distinct {
    ghost use Rattle.std.specs.Prelude.{List};
    ghost use Rattle.cbc_query.specs.declared.note.Note.{Note};
    ghost use Rattle.cbc_query.specs.steps.Distinct.{AreTexts};

    ghost Value = { List Note };

    ghost view = { λ d. d.notes };

    ghost invariant = { λ d. AreTexts d.texts d.notes };
}

impl Distinct {
    /// No notes.
    pub(crate) fn new(alloc: Global) -> Distinct
        ensures { result ≡ [] }
    {
        Distinct {
            notes: Items::new(alloc),
            texts: BTreeSet::new(alloc),
        }
    }

    /// With a note more, if it isn't there yet. The only error is want of memory.
    pub(crate) fn with(self, alloc: Global, note: Note) -> Result<Distinct, AllocError>
        ensures { IfOk result (λ notes. notes ≡ step.with_note self note) }
    {
        let Distinct {
            mut notes,
            mut texts,
        } = self;
        let label = String::from_str(alloc, note.label.as_str())?;
        let identifier = String::from_str(alloc, note.identifier.as_str())?;
        let is_new = texts.insert((label, identifier))?;
        if !is_new {
            return Ok(Distinct { notes, texts });
        }
        notes.push(note)?;
        Ok(Distinct { notes, texts })
    }

    /// The notes themselves.
    pub(crate) fn into_notes(self) -> Items<Note>
        ensures { result ≡ self }
    {
        let Distinct { notes, .. } = self;
        notes
    }
}
