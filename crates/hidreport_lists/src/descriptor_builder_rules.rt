//! The states in which a builder of descriptors may open, close, push, pop and build.
ghost use Rattle.std.specs.Prelude.{◌≡◌, ◌+◌, nat_lt, true, false, refl};

use crate::descriptor_builder_state::*;

/// A state in which a collection may be opened.
pub trait MayOpen: ReportDescriptorBuilderState {
    /// The state behind the call.
    type Inner: ReportDescriptorBuilderState;

    /// No Push waits, and fewer than eight collections are open. Behind the call it is one more.
    ghost opens: { (Self.pushed ≡ false) × (nat_lt Self.level 8 ≡ true)
        × (Self.Inner.pushed ≡ false) × (Self.Inner.level ≡ Self.level + 1) };
}

/// A state in which the innermost collection may be closed.
pub trait MayClose: ReportDescriptorBuilderState {
    /// The state behind the call.
    type Outer: ReportDescriptorBuilderState;

    /// No Push waits, and a collection is open. Behind the call it is one less.
    ghost closes: { (Self.pushed ≡ false) × (Self.level ≡ Self.Outer.level + 1)
        × (Self.Outer.pushed ≡ false) };
}

/// A state in which a Push may be made.
pub trait MayPush: ReportDescriptorBuilderState {
    /// The state behind the call.
    type Pushed: ReportDescriptorBuilderState;

    /// No Push waits. Behind the call one does, inside the same collections.
    ghost pushes: { (Self.pushed ≡ false) × (Self.Pushed.pushed ≡ true)
        × (Self.Pushed.level ≡ Self.level) };
}

/// A state in which the Pop of a Push may be made.
pub trait MayPop: ReportDescriptorBuilderState {
    /// The state behind the call.
    type Popped: ReportDescriptorBuilderState;

    /// A Push waits. Behind the call none does, inside the same collections.
    ghost pops: { (Self.pushed ≡ true) × (Self.Popped.pushed ≡ false)
        × (Self.Popped.level ≡ Self.level) };
}

/// A state in which the descriptor may be built.
pub trait MayBuild: ReportDescriptorBuilderState {
    /// No collection is open, and no Push waits.
    ghost builds: { (Self.level ≡ 0) × (Self.pushed ≡ false) };
}

impl MayBuild for ReportDescriptorBuilderToplevel {
    ghost builds = { (refl, refl) };
}

impl MayOpen for ReportDescriptorBuilderToplevel {
    type Inner = ReportDescriptorBuilderC1;

    ghost opens = { (refl, refl, refl, refl) };
}

impl MayOpen for ReportDescriptorBuilderC1 {
    type Inner = ReportDescriptorBuilderC2;

    ghost opens = { (refl, refl, refl, refl) };
}

impl MayOpen for ReportDescriptorBuilderC2 {
    type Inner = ReportDescriptorBuilderC3;

    ghost opens = { (refl, refl, refl, refl) };
}

impl MayOpen for ReportDescriptorBuilderC3 {
    type Inner = ReportDescriptorBuilderC4;

    ghost opens = { (refl, refl, refl, refl) };
}

impl MayOpen for ReportDescriptorBuilderC4 {
    type Inner = ReportDescriptorBuilderC5;

    ghost opens = { (refl, refl, refl, refl) };
}

impl MayOpen for ReportDescriptorBuilderC5 {
    type Inner = ReportDescriptorBuilderC6;

    ghost opens = { (refl, refl, refl, refl) };
}

impl MayOpen for ReportDescriptorBuilderC6 {
    type Inner = ReportDescriptorBuilderC7;

    ghost opens = { (refl, refl, refl, refl) };
}

impl MayOpen for ReportDescriptorBuilderC7 {
    type Inner = ReportDescriptorBuilderC8;

    ghost opens = { (refl, refl, refl, refl) };
}

impl MayClose for ReportDescriptorBuilderC1 {
    type Outer = ReportDescriptorBuilderToplevel;

    ghost closes = { (refl, refl, refl) };
}

impl MayClose for ReportDescriptorBuilderC2 {
    type Outer = ReportDescriptorBuilderC1;

    ghost closes = { (refl, refl, refl) };
}

impl MayClose for ReportDescriptorBuilderC3 {
    type Outer = ReportDescriptorBuilderC2;

    ghost closes = { (refl, refl, refl) };
}

impl MayClose for ReportDescriptorBuilderC4 {
    type Outer = ReportDescriptorBuilderC3;

    ghost closes = { (refl, refl, refl) };
}

impl MayClose for ReportDescriptorBuilderC5 {
    type Outer = ReportDescriptorBuilderC4;

    ghost closes = { (refl, refl, refl) };
}

impl MayClose for ReportDescriptorBuilderC6 {
    type Outer = ReportDescriptorBuilderC5;

    ghost closes = { (refl, refl, refl) };
}

impl MayClose for ReportDescriptorBuilderC7 {
    type Outer = ReportDescriptorBuilderC6;

    ghost closes = { (refl, refl, refl) };
}

impl MayClose for ReportDescriptorBuilderC8 {
    type Outer = ReportDescriptorBuilderC7;

    ghost closes = { (refl, refl, refl) };
}

impl MayPush for ReportDescriptorBuilderToplevel {
    type Pushed = ReportDescriptorBuilderToplevelPush;

    ghost pushes = { (refl, refl, refl) };
}

impl MayPop for ReportDescriptorBuilderToplevelPush {
    type Popped = ReportDescriptorBuilderToplevel;

    ghost pops = { (refl, refl, refl) };
}

impl MayPush for ReportDescriptorBuilderC1 {
    type Pushed = ReportDescriptorBuilderC1Push;

    ghost pushes = { (refl, refl, refl) };
}

impl MayPop for ReportDescriptorBuilderC1Push {
    type Popped = ReportDescriptorBuilderC1;

    ghost pops = { (refl, refl, refl) };
}

impl MayPush for ReportDescriptorBuilderC2 {
    type Pushed = ReportDescriptorBuilderC2Push;

    ghost pushes = { (refl, refl, refl) };
}

impl MayPop for ReportDescriptorBuilderC2Push {
    type Popped = ReportDescriptorBuilderC2;

    ghost pops = { (refl, refl, refl) };
}

impl MayPush for ReportDescriptorBuilderC3 {
    type Pushed = ReportDescriptorBuilderC3Push;

    ghost pushes = { (refl, refl, refl) };
}

impl MayPop for ReportDescriptorBuilderC3Push {
    type Popped = ReportDescriptorBuilderC3;

    ghost pops = { (refl, refl, refl) };
}

impl MayPush for ReportDescriptorBuilderC4 {
    type Pushed = ReportDescriptorBuilderC4Push;

    ghost pushes = { (refl, refl, refl) };
}

impl MayPop for ReportDescriptorBuilderC4Push {
    type Popped = ReportDescriptorBuilderC4;

    ghost pops = { (refl, refl, refl) };
}

impl MayPush for ReportDescriptorBuilderC5 {
    type Pushed = ReportDescriptorBuilderC5Push;

    ghost pushes = { (refl, refl, refl) };
}

impl MayPop for ReportDescriptorBuilderC5Push {
    type Popped = ReportDescriptorBuilderC5;

    ghost pops = { (refl, refl, refl) };
}

impl MayPush for ReportDescriptorBuilderC6 {
    type Pushed = ReportDescriptorBuilderC6Push;

    ghost pushes = { (refl, refl, refl) };
}

impl MayPop for ReportDescriptorBuilderC6Push {
    type Popped = ReportDescriptorBuilderC6;

    ghost pops = { (refl, refl, refl) };
}

impl MayPush for ReportDescriptorBuilderC7 {
    type Pushed = ReportDescriptorBuilderC7Push;

    ghost pushes = { (refl, refl, refl) };
}

impl MayPop for ReportDescriptorBuilderC7Push {
    type Popped = ReportDescriptorBuilderC7;

    ghost pops = { (refl, refl, refl) };
}

impl MayPush for ReportDescriptorBuilderC8 {
    type Pushed = ReportDescriptorBuilderC8Push;

    ghost pushes = { (refl, refl, refl) };
}

impl MayPop for ReportDescriptorBuilderC8Push {
    type Popped = ReportDescriptorBuilderC8;

    ghost pops = { (refl, refl, refl) };
}
