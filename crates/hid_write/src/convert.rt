//! `hid convert`: a descriptor's bytes in another form.
use anyhow::Result;
use hid_input::parsing::descriptor_within;
use hid_input::settings::Settings;
use hid_input::world::World;
use hid_output::ending::Ending;
use hid_targets::Target;

/// Writes a descriptor in another form.
#[derive(Clone, Copy)]
pub struct Convert<'a> {
    /// The descriptor's input.
    pub file: &'a str,
    /// What its bytes are written as.
    pub target: Target,
}

impl<'a> Convert<'a> {
    /// Writes the bytes.
    pub fn run<R: World>(&self, rt: &R, settings: &Settings) -> Result<Ending> {
        let given = descriptor_within(rt, settings, self.file)?;
        self.target.write(rt, settings, given.descriptor())?;
        Ok(Ending::Done)
    }
}
