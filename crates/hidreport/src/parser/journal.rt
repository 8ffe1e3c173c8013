//! What open Pushes keep, as a list of changes.
use crate::parser::globals::Globals;
use crate::parser::locals::Locals;
use std::alloc::{AllocError, Global};
use std::marker::Model;

/// What the changes inside open Pushes replaced, so that each Pop can take them back
/// (Section 6.2.2.7). Outside every Push it is empty: nothing has to be taken back.
#[derive(Drop)]
pub(crate) struct Journal {
    entries: Vec<Undo>,
}

/// What one change replaced, or where a Push stands.
#[derive(Drop)]
pub(crate) enum Undo {
    /// A Push, and how many local items were in force there: where a Push keeps locals, those that
    /// are added behind it are cut off again. Its Pop drops it, last of all that it takes back.
    Push(usize),
    /// The globals before one of them was set. The Pop brings them back and drops it.
    Globals(Globals),
    /// The local items that a main item ended, moved here. The Pop moves them back where a Push
    /// keeps locals, and drops them else.
    Locals(Locals),
}

impl Model for Journal {
    ghost use Rattle.std.specs.Prelude.{List, map, reverse};
    ghost use Rattle.hidreport.specs.Parser.Journal.{UndoRecord, undo_record};

    ghost Value = { List UndoRecord };

    ghost view = { λ j. reverse (map undo_record j.entries.items) };
}

impl Journal {
    ghost use Rattle.std.specs.Prelude.{◌≡◌, [], ◌∷◌, Some, None, false, IfSome, OnErr, OnOk, IsNone, IsTrue};
    ghost use Rattle.hidreport.specs.Parser.Journal.{undo_record, with_undo, Opened, WasGlobals, WasLocals};

    /// No Push is open.
    pub(crate) fn new(alloc: Global) -> Journal
        ensures { result ≡ [] }
    {
        Journal {
            entries: Vec::new(alloc),
        }
    }

    /// Whether a Push is open.
    pub(crate) fn is_open(&self) -> bool
        ensures closed { result ≡ false → self.now ≡ [] }
        ensures open { IsTrue result → self.now ≡ [] → ⊥ }
    {
        !self.entries.is_empty()
    }

    /// Opens a Push where so many local items are in force.
    pub(crate) fn push(&mut self, locals: usize) -> Result<(), AllocError>
        ensures ok { OnOk result (self.new ≡ Opened locals ∷ self.old) }
        ensures err { OnErr result (self.new ≡ self.old) }
    {
        self.entries.push(Undo::Push(locals))?;
        Ok(())
    }

    /// Remembers the globals before one is set, where a Push is open.
    pub(crate) fn note_globals(&mut self, globals: Globals) -> Result<(), AllocError>
        ensures ok { OnOk result (self.new ≡ with_undo (WasGlobals globals) self.old) }
        ensures err { OnErr result (self.new ≡ self.old) }
    {
        if self.is_open() {
            self.entries.push(Undo::Globals(globals))?;
        }
        Ok(())
    }

    /// Ends the local items. Where a Push is open they are moved into the journal.
    pub(crate) fn end_locals(&mut self, locals: &mut Locals) -> Result<(), AllocError>
        ensures ok { OnOk result (self.new ≡ with_undo (WasLocals locals.old) self.old) }
        ensures ended { OnOk result (locals.new ≡ []) }
        ensures err { OnErr result ((self.new ≡ self.old) × (locals.new ≡ locals.old)) }
    {
        if !self.is_open() {
            locals.clear();
            return Ok(());
        }
        self.entries.reserve(1)?;
        self.entries.push(Undo::Locals(locals.take()))?;
        Ok(())
    }

    /// Takes the newest entry; none where no Push is open.
    pub(crate) fn undo(&mut self) -> Option<Undo>
        ensures some { IfSome result (λ entry. self.old ≡ undo_record entry ∷ self.new) }
        ensures none { IsNone result → (self.old ≡ []) × (self.new ≡ []) }
    {
        self.entries.pop()
    }
}
