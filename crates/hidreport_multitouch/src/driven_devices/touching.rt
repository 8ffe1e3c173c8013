//! The usages of touch reports.
ghost use Rattle.std.specs.Prelude.{◌≡◌, OnOk};
ghost use Rattle.hidreport_multitouch.specs.Fields.{application_in, touched_up_to};

use super::DrivenDevices;
use crate::contact_axis::touch_axis;
use crate::contact_code::{TouchAnswer, TouchPlace, touch_code};
use crate::driven_event::{DrivenEvent, Giver};
use crate::driven_item::TouchItem;
use crate::silent::Silent;
use crate::touched::{TouchApplication, Touched};
use hidreport::Direction;
use hidreport_linux::{EventCode, LinuxField, Unmapped, Wanted};
use std::alloc::AllocError;

const CONFIDENCE: u32 = 0x000d_0047;

/// The usages of applications.
const MULTI_AXIS: u32 = 0x0001_000e;

const TOUCH_SCREEN: u32 = 0x000d_0004;

const TOUCH_PAD: u32 = 0x000d_0005;

impl DrivenDevices {
    ghost use Rattle.std.specs.Prelude.{◌≡◌, ◌==◌, IfOk, OnOk, Some, length, slice_get};
    ghost use Rattle.hidreport_linux.specs.Events.{wanted};
    ghost use Rattle.hidreport_multitouch.specs.Driven.{class_of, has_palms, left_by, tells_palms, touched_answer};
    ghost use Rattle.hidreport_multitouch.specs.Fields.{application_in, applications_for, place_or, touch_item_for, touched_for, with_application};
    ghost use Rattle.hidreport_multitouch.specs.Passing.{given_behind, given_by, noted_in, slots_of_facts};
    ghost use Rattle.hidreport_multitouch.specs.declared.driven_event.Giver.TheVariants as by;

    /// A field as hid-multitouch takes it, before its first usage; `None` where it doesn't take the
    /// device.
    pub(super) fn touch_item(&mut self, field: &LinuxField) -> Result<Option<TouchItem>, AllocError>
        ensures item { IfOk result (λ item. item
            ≡ touch_item_for self.old.facts field.now self.old.applications.items) }
        ensures applications { OnOk result (self.new.applications.items
            ≡ applications_for self.old.facts field.now self.old.current
            self.old.applications.items) }
        ensures touched { OnOk result (self.new.touched.items
            ≡ touched_for self.old.facts self.old.current self.old.touched.items) }
        ensures rest { self.new ≡ record self.old {
          touched = self.new.touched;
          applications = self.new.applications;
        } }
    {
        let is_touch_report = match &self.facts {
            Some(facts) => facts.is_touch_report(&field.report),
            None => return Ok(None),
        };
        begin_devices(self.current, &mut self.touched)?;
        if !is_touch_report || matches!(field.report.direction, Direction::Feature) {
            return Ok(Some(TouchItem::at(field, None)));
        }
        let index = self.application_at(field.report.application)?;
        Ok(Some(TouchItem::at(field, Some(index))))
    }

    /// Which of the applications with touch reports it is, of those so far or a new one.
    fn application_at(&mut self, usage: u32) -> Result<usize, AllocError>
        ensures place { IfOk result (λ index. index
            ≡ place_or (application_in usage self.old.applications.items)
            (length self.old.applications.items)) }
        ensures applications { OnOk result (self.new.applications.items
            ≡ with_application (application_in usage self.old.applications.items) usage
            self.old.current self.old.applications.items) }
        ensures rest { self.new ≡ record self.old { applications = self.new.applications } }
    {
        let device = self.current;
        if let Some(index) = application_in(usage, &self.applications) {
            if let Some(application) = self.applications.get_mut(index) {
                application.device = application.device.min(device);
            }
            return Ok(index);
        }
        self.applications.push(TouchApplication {
            usage,
            device,
            points: usage == TOUCH_SCREEN || usage == TOUCH_PAD,
            tells_palms: false,
        })?;
        Ok(self.applications.len().saturating_sub(1))
    }

    /// The event of a usage of a touch report.
    pub(super) fn touch_event(
        &mut self,
        item: &TouchItem,
        application: usize,
        usage: u32,
    ) -> Result<DrivenEvent, Silent>
        ensures answer { result ≡ touched_answer self.old item.now application usage }
        ensures applications { self.new.applications.items
            ≡ noted_in self.old item.now usage (Some application) }
        ensures touched { self.new.touched.items ≡ given_behind self.old item.now result }
        ensures rest { self.new ≡ record self.old {
          applications = self.new.applications;
          touched = self.new.touched;
        } }
    {
        let place = TouchPlace {
            class: self.class(),
            application: item.place.application,
            tells_palms: self.note_usage(item, application, usage),
        };
        let before = if item.before == 0 {
            None
        } else {
            Some(item.before)
        };
        match touch_code(&place, before, usage) {
            TouchAnswer::Code(code) => Ok(self.registered(item, code)),
            TouchAnswer::Read => Err(Silent::Read),
            TouchAnswer::Ignored => Err(Silent::Ignored),
            TouchAnswer::PastCodes => Err(Silent::Unmapped(Unmapped::PastCodes)),
            TouchAnswer::Left => self.left(item, usage),
        }
    }

    /// What a usage says of its report's application; whether Confidence tells palms there.
    fn note_usage(&mut self, item: &TouchItem, application: usize, usage: u32) -> bool
        ensures palms { result ≡ has_palms (slice_get self.old.applications.items application)
            (tells_palms (class_of self.old.facts) item.now.place.application usage) }
        ensures applications { self.new.applications.items
            ≡ noted_in self.old item.now usage (Some application) }
        ensures rest { self.new ≡ record self.old { applications = self.new.applications } }
    {
        let is_screen = item.place.application == TOUCH_SCREEN;
        let is_touch = is_screen || item.place.application == TOUCH_PAD;
        let tells = self.class().is_windows_8() && is_touch && usage == CONFIDENCE;
        match self.applications.get_mut(application) {
            Some(one) => {
                one.points = one.points || is_screen && usage / 0x1_0000 == 0x09;
                one.tells_palms = one.tells_palms || tells;
                one.tells_palms
            }
            None => false,
        }
    }

    /// Registers a code for a usage.
    fn registered(&mut self, item: &TouchItem, code: EventCode) -> DrivenEvent
        ensures code { result.code ≡ code }
        ensures device { result.device ≡ self.old.current }
        ensures giver { result.giver ≡ by.Multitouch (item.now.place.application == 0x1000e) }
        ensures touched { self.new.touched.items ≡ given_by result.giver self.old item.now result }
        ensures rest { self.new ≡ record self.old { touched = self.new.touched } }
    {
        let slots = self.slots();
        let axis = touch_axis(code, slots, &item.place, &item.measures);
        if let Some(touched) = self.touched.get_mut(self.current) {
            touched.register(code, Some(axis));
        }
        DrivenEvent {
            code,
            device: self.current,
            giver: Giver::Multitouch {
                is_dial: item.place.application == MULTI_AXIS,
            },
        }
    }

    /// How many contacts an input device tells apart.
    fn slots(&self) -> u8
        ensures { result ≡ slots_of_facts self.now.facts }
    {
        match &self.facts {
            Some(facts) => facts.slots(),
            None => 1,
        }
    }

    /// What hid-input would give a usage, which isn't registered for it.
    fn left(&self, item: &TouchItem, usage: u32) -> Result<DrivenEvent, Silent>
        ensures { result ≡ left_by self.now (wanted usage item.now.place) }
    {
        match Wanted::of(usage, &item.place) {
            Ok(wanted) => Ok(DrivenEvent {
                code: wanted.code,
                device: self.current,
                giver: Giver::Nobody,
            }),
            Err(reason) => Err(Silent::Unmapped(reason)),
        }
    }
}

/// No codes so far for each input device up to this one.
fn begin_devices(current: usize, touched: &mut Vec<Touched>) -> Result<(), AllocError>
    ensures { OnOk result (touched.new.items ≡ touched_up_to current touched.old.items) }
{
    if current < touched.len() {
        return Ok(());
    }
    for _device in touched.len()..current {
        touched.push(Touched::new())?;
    }
    touched.push(Touched::new())?;
    Ok(())
}

/// Where an application stands among these, if it does.
fn application_in(usage: u32, applications: &[TouchApplication]) -> Option<usize>
    ensures { result ≡ application_in usage applications.now }
{
    for (index, one) in applications.iter().enumerate() {
        if one.usage == usage {
            return Some(index);
        }
    }
    None
}
