//! The item state table (Section 6.2.2.7), and what each open Push keeps of it.
use crate::parser::globals::Globals;
use crate::parser::journal::{Journal, Undo};
use crate::parser::locals::Locals;
use crate::parser::paged_local::PagedLocal;
use crate::parser::push_keeps::PushKeeps;
use crate::parser::usages_by::UsagesBy;
use hidreport_items::{GlobalItem, LocalItem};
use std::alloc::{AllocError, Global};
use std::marker::Model;

/// What is in force between two items (Sections 6.2.2.7 and 6.2.2.8), and what each open Push
/// keeps of it for its Pop: one record of globals, one list of locals, and a journal of what was
/// replaced inside open Pushes.
#[derive(Drop)]
pub(crate) struct ItemStateTable {
    push_keeps: PushKeeps,
    usages_by: UsagesBy,
    globals: Globals,
    locals: Locals,
    journal: Journal,
}

impl Model for ItemStateTable {
    ghost use Rattle.std.specs.Prelude.{reverse};
    ghost use Rattle.hidreport.specs.Parser.ItemStates.{ItemStates, item_state_of};
    ghost use Rattle.hidreport.specs.Parser.Journal.{Fits, undone_stack};

    ghost Value = { ItemStates };

    ghost view = { λ f. record {
      push_keeps = f.push_keeps;
      now = item_state_of f.usages_by f.globals f.locals;
      stack = reverse (undone_stack f.push_keeps f.usages_by f.journal f.globals f.locals);
    } };

    ghost invariant = { λ f. Fits f.push_keeps f.journal f.locals };
}

impl ItemStateTable {
    ghost use Rattle.std.specs.Prelude.{◌≡◌, ◌-◌, ◌<◌, [], ◌∷◌, ◌++◌, false, length, take, IsTrue, OnOk};
    ghost use Rattle.hidreport_items.specs.declared.item.ItemType.TheVariants as items;
    ghost use Rattle.hidreport.specs.Parser.ItemStates.{item_state_of};
    ghost use Rattle.hidreport.specs.Parser.Machine.{after_pop, pushed_copy, last_item_state, next_item_state, no_item_state};

    /// Before the first item.
    pub(crate) fn new(alloc: Global, push_keeps: PushKeeps, usages_by: UsagesBy) -> ItemStateTable
        ensures { result
            ≡ record { push_keeps = push_keeps; now = no_item_state usages_by; stack = [] } }
    {
        ItemStateTable {
            push_keeps,
            usages_by,
            globals: Globals::new(),
            locals: Locals::new(alloc),
            journal: Journal::new(alloc),
        }
    }

    /// The values of global items.
    pub(crate) fn globals(&self) -> &Globals
        ensures { item_state_of self.now.now.usages_by result.now self.now.now.locals
            ≡ self.now.now }
    {
        &self.globals
    }

    /// By which rule usages are found.
    pub(crate) fn usages_by(&self) -> UsagesBy
        ensures { result ≡ self.now.now.usages_by }
    {
        self.usages_by
    }

    /// The local items.
    pub(crate) fn locals(&self) -> &Locals
        ensures { result.now ≡ self.now.now.locals }
    {
        &self.locals
    }

    /// Whether a Push is open.
    #[inline(always)]
    pub(crate) fn has_push(&self) -> bool
        ensures { result ≡ false → self.now.stack ≡ [] }
    {
        self.journal.is_open()
    }

    /// Sets the value of a global item; a Push, a Pop and a reserved item have none.
    #[inline(always)]
    pub(crate) fn set(&mut self, item: GlobalItem) -> Result<(), AllocError>
        ensures { OnOk result (self.new ≡ record self.old {
          now = next_item_state self.old.now (items.Global item);
        }) }
    {
        self.journal.note_globals(self.globals)?;
        self.globals.set(item);
        Ok(())
    }

    /// Adds a local item.
    #[inline(always)]
    pub(crate) fn add_local(&mut self, item: LocalItem) -> Result<(), AllocError>
        ensures { OnOk result (self.new ≡ record self.old {
          now = next_item_state self.old.now (items.Local item);
        }) }
    {
        let page = self.globals.usage_page;
        self.locals.add(PagedLocal { page, item })?;
        Ok(())
    }

    /// Ends the locals, as each main item does.
    pub(crate) fn end_locals(&mut self) -> Result<(), AllocError>
        ensures { OnOk result (self.new ≡ record self.old {
          now = record self.old.now { locals = [] };
        }) }
    {
        self.journal.end_locals(&mut self.locals)
    }

    /// Keeps for the Pop of a Push what is in force, of locals and globals or of globals alone.
    pub(crate) fn push(&mut self) -> Result<(), AllocError>
        ensures { OnOk result (self.new ≡ record self.old {
          stack = self.old.stack ++ pushed_copy self.old.push_keeps self.old.now ∷ [];
        }) }
    {
        self.journal.push(self.locals.len())
    }

    /// Brings back what the last open Push kept, and answers whether a Push was open. Here alone
    /// it matters what a Push keeps: locals that it doesn't keep go on as they are.
    pub(crate) fn pop(&mut self) -> bool
        ensures open { IsTrue result → 0 < length self.old.stack }
        ensures back { IsTrue result → self.new ≡ record {
          push_keeps = self.old.push_keeps;
          now = after_pop self.old.push_keeps self.old.now (last_item_state self.old.now self.old.stack);
          stack = take (length self.old.stack - 1) self.old.stack;
        } }
        ensures none { result ≡ false → self.old.stack ≡ [] }
    {
        let has_locals = self.push_keeps.has_locals();
        while let Some(entry) = self.journal.undo() {
            match entry {
                Undo::Globals(old) => self.globals = old,
                Undo::Locals(old) => {
                    if has_locals {
                        self.locals = old;
                    }
                }
                Undo::Push(locals) => {
                    if has_locals {
                        self.locals.truncate(locals);
                    }
                    return true;
                }
            }
        }
        false
    }
}
