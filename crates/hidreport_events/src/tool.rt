//! The tool of a pen: whether it is near, turned, and touches.
ghost use Rattle.std.specs.Prelude.{◌≡◌};
ghost use Rattle.hidreport_events.specs.Tools.{pressed_from};

use crate::event_field::EventField;
use crate::sender::Sender;
use hidreport_linux::EventCode;
use std::alloc::AllocError;

/// `BTN_TOOL_RUBBER`.
const RUBBER: u16 = 0x141;

/// `BTN_TOUCH`.
const TOUCH: u16 = 0x14a;

impl Sender {
    ghost use Rattle.std.specs.Prelude.{◌≡◌, false, IfOk, OnOk, true};
    ghost use Rattle.hidreport_events.specs.Tools.{behind_eraser, behind_in_range, behind_invert, behind_pressure, behind_tip, behind_tool, goes_on, near_if, passes_eraser, taking, with_tool, without_tool};

    /// Takes a value of a pen's usage, which may be the whole of it: whether its event is sent, too.
    #[tactic(auto, unfolding(crate::specs::Tools::behind_tool, crate::specs::Tools::goes_on))]
    pub(crate) fn pass_tool(
        &mut self,
        usage: u32,
        code: EventCode,
        field: &EventField,
        value: i32,
    ) -> Result<bool, AllocError>
        ensures state { OnOk result (self.new ≡ behind_tool usage code field.now value self.old) }
        ensures answer { IfOk result (λ sends. sends ≡ goes_on usage value self.old) }
    {
        match usage {
            0x000d_0045 => self.pass_eraser(value),
            0x000d_003c => self.pass_invert(value),
            0x000d_0032 => self.pass_in_range(code, value),
            0x000d_0042 => Ok(self.pass_tip(value)),
            0x000d_0030 => self.pass_pressure(field, value),
            _ => Ok(true),
        }
    }

    /// That a part of the report says that the tool is near, or doesn't.
    #[tactic(auto, unfolding(crate::specs::Tools::near_if))]
    fn be_near_if(&mut self, value: i32)
        ensures { self.new ≡ near_if value self.old }
    {
        self.is_near = self.is_near || value != 0;
    }

    /// An Eraser: its touch is that of a turned pen.
    #[tactic(auto, unfolding(crate::specs::Tools::behind_eraser, crate::specs::Tools::near_if, crate::specs::Tools::passes_eraser))]
    fn pass_eraser(&mut self, value: i32) -> Result<bool, AllocError>
        ensures state { OnOk result (self.new ≡ behind_eraser value self.old) }
        ensures answer { IfOk result (λ sends. sends ≡ passes_eraser value self.old) }
    {
        self.be_near_if(value);
        if value != 0 {
            self.take_tool(RUBBER)?;
            return Ok(true);
        }
        if self.tool != RUBBER {
            return Ok(false);
        }
        if self.lacks_invert && !self.is_down(TOUCH) {
            self.let_go(RUBBER)?;
            return Ok(false);
        }
        Ok(true)
    }

    /// An Invert: the pen is turned.
    #[tactic(auto, unfolding(crate::specs::Tools::behind_invert))]
    fn pass_invert(&mut self, value: i32) -> Result<bool, AllocError>
        ensures state { OnOk result (self.new ≡ behind_invert value self.old) }
        ensures answer { IfOk result (λ sends. sends ≡ false) }
    {
        self.be_near_if(value);
        if value != 0 {
            self.take_tool(RUBBER)?;
        } else if !self.is_near {
            self.let_go(RUBBER)?;
        }
        Ok(false)
    }

    /// An In Range, which comes behind what else says that the tool is near.
    #[tactic(auto, unfolding(crate::specs::Tools::behind_in_range))]
    fn pass_in_range(&mut self, code: EventCode, value: i32) -> Result<bool, AllocError>
        ensures state { OnOk result (self.new ≡ behind_in_range code value self.old) }
        ensures answer { IfOk result (λ sends. sends ≡ false) }
    {
        self.be_near_if(value);
        if self.is_near {
            let tool = if self.tool == 0 {
                code.number
            } else {
                self.tool
            };
            self.tool = tool;
            self.take_tool(tool)?;
        } else {
            self.let_go(code.number)?;
        }
        self.is_near = false;
        Ok(false)
    }

    /// A Tip Switch, which says nothing of a turned pen.
    #[tactic(auto, unfolding(crate::specs::Tools::behind_tip, crate::specs::Tools::near_if))]
    fn pass_tip(&mut self, value: i32) -> bool
        ensures state { self.new ≡ behind_tip value self.old }
        ensures answer { result ≡ taking self.old }
    {
        self.be_near_if(value);
        self.tool != RUBBER
    }

    /// A Tip Pressure, which touches above an eighth where no switch says that it does.
    #[tactic(auto, unfolding(crate::specs::Tools::behind_pressure))]
    fn pass_pressure(&mut self, field: &EventField, value: i32) -> Result<bool, AllocError>
        ensures state { OnOk result (self.new ≡ behind_pressure field.now value self.old) }
        ensures answer { IfOk result (λ sends. sends ≡ true) }
    {
        if self.says_touch && value > pressed_from(field) {
            self.send(EventCode::key(TOUCH), 1)?;
            self.is_near = true;
        }
        Ok(true)
    }

    /// Another tool is near.
    #[tactic(auto, unfolding(crate::specs::Tools::with_tool))]
    fn take_tool(&mut self, tool: u16) -> Result<(), AllocError>
        ensures { OnOk result (self.new ≡ with_tool tool self.old) }
    {
        if self.tool != tool {
            self.let_go(self.tool)?;
        }
        self.send(EventCode::key(tool), 1)?;
        self.tool = tool;
        Ok(())
    }

    /// A tool is near no more, if it was.
    #[tactic(auto, unfolding(crate::specs::Tools::without_tool))]
    fn let_go(&mut self, tool: u16) -> Result<(), AllocError>
        ensures { OnOk result (self.new ≡ without_tool tool self.old) }
    {
        if !self.is_down(tool) {
            return Ok(());
        }
        self.send(EventCode::key(TOUCH), 0)?;
        self.send(EventCode::key(tool), 0)?;
        self.sync()?;
        self.tool = 0;
        Ok(())
    }
}

/// The value above which a pressure touches.
#[tactic(auto, unfolding(crate::specs::Tools::pressed_from))]
fn pressed_from(field: &EventField) -> i32
    ensures { result ≡ pressed_from field.now }
{
    let span = field.maximum.wrapping_sub(field.minimum);
    field.minimum.wrapping_add(span >> 3)
}
