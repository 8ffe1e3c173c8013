//! The usages that hid-input gives their codes.
ghost use Rattle.std.specs.Prelude.{◌≡◌};
ghost use Rattle.hidreport_linux.specs.Events.{wanted};
ghost use Rattle.hidreport_multitouch.specs.Driven.{is_shared_by};
ghost use Rattle.hidreport_multitouch.specs.Passing.{with_codes};

use super::DrivenDevices;
use crate::driven_event::{DrivenEvent, Giver};
use crate::driven_item::TouchItem;
use crate::silent::Silent;
use crate::touched::Touched;
use hidreport::Usage;
use hidreport_linux::{Axis, Event, EventCode, Item, Unmapped, Wanted};

/// The usage of a stylus.
const STYLUS: u32 = 0x000d_0020;

impl DrivenDevices {
    ghost use Rattle.std.specs.Prelude.{◌≡◌, slice_get};
    ghost use Rattle.hidreport_multitouch.specs.Driven.{answered_in, driven_by, hid_input_answer, inputs_at, is_registered, unless_taken};
    ghost use Rattle.hidreport_multitouch.specs.Passing.{claimed, claimed_behind, GoesOnAt, input_behind, named_by};
    ghost use Rattle.hidreport_multitouch.specs.Settled.{axis_for};

    /// What hid-input gives a usage.
    pub(super) fn hid_input_event(
        &mut self,
        item: &mut Item,
        usage: u32,
    ) -> Result<DrivenEvent, Silent>
        ensures answer { result ≡ hid_input_answer self.old item.old usage }
        ensures item { item.new ≡ input_behind
            (slice_get self.old.inputs.items (inputs_at self.old)) item.old usage }
        ensures inputs { GoesOnAt item.old usage (inputs_at self.old) self.old.inputs.items
            self.new.inputs.items }
        ensures rest { self.new ≡ record self.old { inputs = self.new.inputs } }
    {
        let answer = self.answer_of(self.current_inputs(), item, usage);
        self.driven(answer)
    }

    /// What the input devices of hid-input at an index answer a usage.
    fn answer_of(&mut self, index: usize, item: &mut Item, usage: u32) -> Result<Event, Unmapped>
        ensures answer { result
            ≡ answered_in (slice_get self.old.inputs.items index) item.old usage }
        ensures item { item.new
            ≡ input_behind (slice_get self.old.inputs.items index) item.old usage }
        ensures inputs { GoesOnAt item.old usage index self.old.inputs.items
            self.new.inputs.items }
        ensures rest { self.new ≡ record self.old { inputs = self.new.inputs } }
    {
        let Some(inputs) = self.inputs.get_mut(index) else {
            return Err(Unmapped::NoInput);
        };
        inputs.event(item, Usage::from(usage))
    }

    /// The same of an answer of the input devices that the report goes to.
    fn driven(&self, answer: Result<Event, Unmapped>) -> Result<DrivenEvent, Silent>
        ensures { result ≡ driven_by self.now answer }
    {
        match answer {
            Ok(event) if self.is_by_id() => Ok(DrivenEvent::of(event, self.current)),
            Ok(event) => Ok(DrivenEvent::of(event, event.device)),
            Err(reason) => Err(Silent::Unmapped(reason)),
        }
    }

    /// The same in a report that isn't a touch report: where hid-multitouch has registered the code
    /// for the same device, only a shared one. The device of a stylus is named by it.
    pub(super) fn other_event(
        &mut self,
        item: &mut Item,
        touch: &TouchItem,
        usage: u32,
    ) -> Result<DrivenEvent, Silent>
        ensures answer { result ≡ unless_taken self.old.touched.items touch.now usage
            (hid_input_answer self.old item.old usage) }
        ensures item { item.new ≡ input_behind
            (slice_get self.old.inputs.items (inputs_at self.old)) item.old usage }
        ensures inputs { GoesOnAt item.old usage (inputs_at self.old) self.old.inputs.items
            self.new.inputs.items }
        ensures names { self.new.names.items ≡ named_by touch.now self.old }
        ensures touched { self.new.touched.items
            ≡ claimed_behind self.old self.new touch.now result }
        ensures rest { self.new ≡ record self.old {
          inputs = self.new.inputs;
          names = self.new.names;
          touched = self.new.touched;
        } }
    {
        self.name_stylus(touch);
        let answer = self.hid_input_event(item, usage);
        self.unless_taken(touch, usage, answer)
    }

    /// An event whose code nothing else may have: none where hid-multitouch has registered it.
    fn unless_taken(
        &mut self,
        touch: &TouchItem,
        usage: u32,
        answer: Result<DrivenEvent, Silent>,
    ) -> Result<DrivenEvent, Silent>
        ensures answer { result ≡ unless_taken self.old.touched.items touch.now usage answer }
        ensures touched { self.new.touched.items
            ≡ claimed_behind self.old self.old touch.now result }
        ensures rest { self.new ≡ record self.old { touched = self.new.touched } }
    {
        match answer {
            Ok(event) if self.is_registered(&event) && !is_shared(usage, touch) => {
                Err(Silent::Unmapped(Unmapped::Taken))
            }
            Ok(event) => {
                self.note_claims(&event);
                Ok(event)
            }
            Err(reason) => Err(reason),
        }
    }

    /// Whether hid-multitouch has registered the code of an event for its input device.
    fn is_registered(&self, event: &DrivenEvent) -> bool
        ensures { result
            ≡ is_registered (slice_get self.now.touched.items event.now.device) event.now.code }
    {
        match self.touched.get(event.device) {
            Some(touched) => touched.has(event.code),
            None => false,
        }
    }

    /// Names the input device of a report of a stylus by it.
    fn name_stylus(&mut self, touch: &TouchItem)
        ensures names { self.new.names.items ≡ named_by touch.now self.old }
        ensures rest { self.new ≡ record self.old { names = self.new.names } }
    {
        if touch.place.physical != STYLUS {
            return;
        }
        if let Some(name) = self.names.get_mut(self.current) {
            *name = STYLUS;
        }
    }

    /// Keeps the codes of a usage that hid-input gives its code.
    fn note_claims(&mut self, event: &DrivenEvent)
        ensures touched { self.new.touched.items ≡ claimed event.now.giver self.old
            (axis_for self.old event.now) event.now }
        ensures rest { self.new ≡ record self.old { touched = self.new.touched } }
    {
        let axis = self.axis(event);
        let Some(touched) = self.touched.get_mut(event.device) else {
            return;
        };
        touched.register(event.code, axis);
        if let Giver::HidInput(role) = event.giver {
            register_all(touched, role.beside(), axis);
        }
    }
}

/// Registers codes whose axes say so of themselves.
fn register_all(touched: &mut Touched, codes: &[EventCode], axis: Option<Axis>)
    ensures { touched.new ≡ with_codes codes.now axis touched.old }
{
    for code in codes {
        touched.register(*code, axis);
    }
}

/// Whether the code that hid-input gives a usage is one that several may have.
fn is_shared(usage: u32, touch: &TouchItem) -> bool
    ensures { result ≡ is_shared_by (wanted usage touch.now.place) }
{
    match Wanted::of(usage, &touch.place) {
        Ok(wanted) => wanted.is_shared,
        Err(_) => false,
    }
}
