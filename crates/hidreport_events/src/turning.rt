//! Wheels and volumes, which turn.
ghost use Rattle.std.specs.Prelude.{◌≡◌};
ghost use Rattle.hidreport_events.specs.Turning.{behind_click, fine_steps, turned, volume_key, whole_clicks};
ghost use Rattle.hidreport_linux.specs.Asking.{low_half};

use crate::event_field::low_half;
use crate::sender::Sender;
use hidreport_linux::EventCode;
use std::alloc::AllocError;

/// So many fine steps of a wheel are a click.
const CLICK: i16 = 120;

impl Sender {
    ghost use Rattle.std.specs.Prelude.{◌≡◌, OnOk};
    ghost use Rattle.hidreport_events.specs.Turning.{behind_side_wheel, behind_volume, behind_wheel, pressed_once};

    /// Turns the wheel: fine steps, and the clicks that are whole.
    #[tactic(auto, unfolding(crate::specs::Turning::behind_wheel))]
    pub(crate) fn turn_wheel(&mut self, multiplier: i32, value: i32) -> Result<(), AllocError>
        ensures { OnOk result (self.new ≡ behind_wheel multiplier value self.old) }
    {
        if value == 0 {
            return Ok(());
        }
        let fine = fine_steps(multiplier, value);
        let all = turned(self.wheel, fine);
        self.wheel = behind_click(all);
        self.send(EventCode::relative(0x08), whole_clicks(all))?;
        self.send(EventCode::relative(0x0b), fine)
    }

    /// Turns the wheel to the side.
    #[tactic(auto, unfolding(crate::specs::Turning::behind_side_wheel))]
    pub(crate) fn turn_side_wheel(&mut self, multiplier: i32, value: i32) -> Result<(), AllocError>
        ensures { OnOk result (self.new ≡ behind_side_wheel multiplier value self.old) }
    {
        if value == 0 {
            return Ok(());
        }
        let fine = fine_steps(multiplier, value);
        let all = turned(self.side_wheel, fine);
        self.side_wheel = behind_click(all);
        self.send(EventCode::relative(0x06), whole_clicks(all))?;
        self.send(EventCode::relative(0x0c), fine)
    }

    /// Turns the volume: its key is pressed and let go for each step.
    #[tactic(auto, using(crate::proofs::TurningLemmas::press_step), unfolding(crate::specs::Turning::behind_volume))]
    pub(crate) fn turn_volume(&mut self, value: i32) -> Result<(), AllocError>
        ensures { OnOk result (self.new ≡ behind_volume value self.old) }
    {
        if !self.has_keys || value == i32::MIN {
            return Ok(());
        }
        let key = volume_key(value);
        for _step in 0..value.unsigned_abs() {
            self.press_once(key)?;
        }
        Ok(())
    }

    /// Presses a key and lets it go.
    #[tactic(auto, unfolding(crate::specs::Turning::pressed_once))]
    fn press_once(&mut self, key: EventCode) -> Result<(), AllocError>
        ensures { OnOk result (self.new ≡ pressed_once key self.old) }
    {
        self.send(key, 1)?;
        self.sync()?;
        self.send(key, 0)?;
        self.sync()
    }
}

/// `KEY_VOLUMEUP` or `KEY_VOLUMEDOWN`.
#[tactic(auto, unfolding(crate::specs::Turning::volume_key))]
fn volume_key(value: i32) -> EventCode
    ensures { result ≡ volume_key value }
{
    EventCode::key(if value > 0 { 0x73 } else { 0x72 })
}

/// The parts of 120 of a click that a value of a wheel with so many steps to a click means.
#[tactic(auto, unfolding(crate::specs::Turning::fine_steps))]
fn fine_steps(multiplier: i32, value: i32) -> i32
    ensures { result ≡ fine_steps multiplier value }
{
    let steps = value.wrapping_mul(120);
    if multiplier == 0 || multiplier == -1 {
        return if multiplier == 0 {
            steps
        } else {
            steps.wrapping_neg()
        };
    }
    steps / multiplier
}

/// By how much a wheel is turned behind the last click, in 16 bits.
#[tactic(auto, unfolding(crate::specs::Turning::turned))]
fn turned(before: i16, fine: i32) -> i16
    ensures { result ≡ turned before fine }
{
    low_half(i32::from(before).wrapping_add(fine))
}

/// How many clicks are whole.
#[tactic(auto, unfolding(crate::specs::Turning::whole_clicks))]
fn whole_clicks(all: i16) -> i32
    ensures { result ≡ whole_clicks all }
{
    i32::from(all / CLICK)
}

/// How far a wheel is turned behind the last whole click.
#[tactic(auto, unfolding(crate::specs::Turning::behind_click))]
fn behind_click(all: i16) -> i16
    ensures { result ≡ behind_click all }
{
    all % CLICK
}
