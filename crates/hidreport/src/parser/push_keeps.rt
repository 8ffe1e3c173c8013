//! What a Push keeps.

/// What a Push keeps for its Pop (Section 6.2.2.7).
#[derive(Clone, Copy, Debug, PartialEq, Eq)]
pub enum PushKeeps {
    /// The values of global items, and the local items in force, as the Rust crate has it.
    All,

    /// The values of global items, as the standard words it and Linux reads it: local items go on
    /// through Push and Pop.
    Globals,
}

impl PushKeeps {
    ghost use Rattle.std.specs.Prelude.{◌≡◌, false, IsTrue};
    ghost use Rattle.hidreport.specs.declared.parser.push_keeps.PushKeeps.TheVariants as a_push_keeps;

    /// Whether local items are kept, too.
    pub(crate) fn has_locals(self) -> bool
        ensures all { IsTrue result → self ≡ a_push_keeps.All }
        ensures globals { result ≡ false → self ≡ a_push_keeps.Globals }
    {
        match self {
            PushKeeps::All => true,
            PushKeeps::Globals => false,
        }
    }
}
