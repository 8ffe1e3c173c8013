//! One item further where that is a global or a local one, read where it stands.
use crate::parser::state::State;
use hidreport_items::{GlobalItem, read_global, read_local};
use hidreport_lists::front_parts;
use std::alloc::AllocError;

impl State {
    ghost use Rattle.std.specs.Prelude.{◌≡◌, false, None, Ok, IfOk, IfSome, IsTrue};
    ghost use Rattle.hidreport_items.specs.Spelling.{global_item, item_of, local_item, read_as};
    ghost use Rattle.hidreport_items.specs.declared.item.ItemType.{ItemType};
    ghost use Rattle.hidreport.specs.Parser.FrontStep.{GoesBy, HasTaken};
    ghost use Rattle.hidreport.specs.Parser.Machine.{step};

    /// Goes on by the item at the front of the bytes where that is the common one, a global item
    /// that sets a value or a local item, and answers how many bytes it has: as `take` does, without
    /// the item made first. Of any other item and of what is none it answers nothing, and all is as
    /// it was.
    #[inline(always)]
    pub(crate) fn take_front(&mut self, bytes: &[u8]) -> Result<Option<usize>, AllocError>
        ensures taken { IfOk result (λ taken. IfSome taken (λ size.
            HasTaken self.old self.new size bytes.now)) }
        ensures left { IfOk result (λ taken. taken ≡ None → self.new ≡ self.old) }
    {
        let Ok(parts) = front_parts(bytes) else {
            return Ok(None);
        };
        if !self.take_parts(parts.header, parts.data)? {
            return Ok(None);
        }
        Ok(Some(1 + parts.data.len()))
    }

    /// The same of a header and its data; answers whether it went on.
    #[inline(always)]
    fn take_parts(&mut self, header: u8, data_bytes: &[u8]) -> Result<bool, AllocError>
        ensures taken { IfOk result (λ is_taken. IsTrue is_taken
            → GoesBy self.old self.new (item_of header data_bytes.now)) }
        ensures left { IfOk result (λ is_taken. is_taken ≡ false → self.new ≡ self.old) }
    {
        match header >> 2 & 0x03 {
            1 => self.take_global_parts(header, data_bytes),
            2 => self.take_local_parts(header, data_bytes),
            _ => Ok(false),
        }
    }

    /// Goes on by the global item of a header and its data, unless it is none, a Push or a Pop, or
    /// a Push is open, whose Pop wants to know what it replaces.
    #[inline(always)]
    fn take_global_parts(&mut self, header: u8, data_bytes: &[u8]) -> Result<bool, AllocError>
        ensures taken { IfOk result (λ is_taken. IsTrue is_taken
            → GoesBy self.old self.new
            (read_as ItemType.Global (global_item header data_bytes.now))) }
        ensures left { IfOk result (λ is_taken. is_taken ≡ false → self.new ≡ self.old) }
    {
        if self.item_states.has_push() {
            return Ok(false);
        }
        match read_global(header, data_bytes) {
            Ok(item) => self.take_setting(item),
            Err(_) => Ok(false),
        }
    }

    /// Goes on by a global item, unless it is a Push or a Pop.
    #[inline(always)]
    fn take_setting(&mut self, item: GlobalItem) -> Result<bool, AllocError>
        ensures taken { IfOk result (λ is_taken. IsTrue is_taken
            → step self.old (ItemType.Global item) ≡ Ok self.new) }
        ensures left { IfOk result (λ is_taken. is_taken ≡ false → self.new ≡ self.old) }
    {
        match item {
            GlobalItem::Push => Ok(false),
            GlobalItem::Pop => Ok(false),
            item => {
                self.item_states.set(item)?;
                Ok(true)
            }
        }
    }

    /// Goes on by the local item of a header and its data, unless it is none.
    #[inline(always)]
    fn take_local_parts(&mut self, header: u8, data_bytes: &[u8]) -> Result<bool, AllocError>
        ensures taken { IfOk result (λ is_taken. IsTrue is_taken
            → GoesBy self.old self.new
            (read_as ItemType.Local (local_item header data_bytes.now))) }
        ensures left { IfOk result (λ is_taken. is_taken ≡ false → self.new ≡ self.old) }
    {
        match read_local(header, data_bytes) {
            Ok(item) => {
                self.item_states.add_local(item)?;
                Ok(true)
            }
            Err(_) => Ok(false),
        }
    }
}
