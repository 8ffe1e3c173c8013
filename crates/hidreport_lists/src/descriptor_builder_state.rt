//! Where a builder of descriptors stands: the collections that are open, and whether a Push waits.
ghost use Rattle.std.specs.Prelude.{ℕ, Bool, true, false};

/// What a builder of descriptors has open.
pub trait ReportDescriptorBuilderState: Drop {
    /// How many collections are open.
    ghost level: { ℕ };

    /// Whether a Push waits for its Pop.
    ghost pushed: { Bool };
}

/// The state in which no collection is open.
#[derive(Drop)]
pub enum ReportDescriptorBuilderToplevel {}

impl ReportDescriptorBuilderState for ReportDescriptorBuilderToplevel {
    ghost level = { 0 };

    ghost pushed = { false };
}

/// The state in which no collection is open, and a Push waits.
#[derive(Drop)]
pub enum ReportDescriptorBuilderToplevelPush {}

impl ReportDescriptorBuilderState for ReportDescriptorBuilderToplevelPush {
    ghost level = { 0 };

    ghost pushed = { true };
}

/// The state in which one collection is open.
#[derive(Drop)]
pub enum ReportDescriptorBuilderC1 {}

impl ReportDescriptorBuilderState for ReportDescriptorBuilderC1 {
    ghost level = { 1 };

    ghost pushed = { false };
}

/// The state in which one collection is open, and a Push waits.
#[derive(Drop)]
pub enum ReportDescriptorBuilderC1Push {}

impl ReportDescriptorBuilderState for ReportDescriptorBuilderC1Push {
    ghost level = { 1 };

    ghost pushed = { true };
}

/// The state in which two collections are open.
#[derive(Drop)]
pub enum ReportDescriptorBuilderC2 {}

impl ReportDescriptorBuilderState for ReportDescriptorBuilderC2 {
    ghost level = { 2 };

    ghost pushed = { false };
}

/// The state in which two collections are open, and a Push waits.
#[derive(Drop)]
pub enum ReportDescriptorBuilderC2Push {}

impl ReportDescriptorBuilderState for ReportDescriptorBuilderC2Push {
    ghost level = { 2 };

    ghost pushed = { true };
}

/// The state in which three collections are open.
#[derive(Drop)]
pub enum ReportDescriptorBuilderC3 {}

impl ReportDescriptorBuilderState for ReportDescriptorBuilderC3 {
    ghost level = { 3 };

    ghost pushed = { false };
}

/// The state in which three collections are open, and a Push waits.
#[derive(Drop)]
pub enum ReportDescriptorBuilderC3Push {}

impl ReportDescriptorBuilderState for ReportDescriptorBuilderC3Push {
    ghost level = { 3 };

    ghost pushed = { true };
}

/// The state in which four collections are open.
#[derive(Drop)]
pub enum ReportDescriptorBuilderC4 {}

impl ReportDescriptorBuilderState for ReportDescriptorBuilderC4 {
    ghost level = { 4 };

    ghost pushed = { false };
}

/// The state in which four collections are open, and a Push waits.
#[derive(Drop)]
pub enum ReportDescriptorBuilderC4Push {}

impl ReportDescriptorBuilderState for ReportDescriptorBuilderC4Push {
    ghost level = { 4 };

    ghost pushed = { true };
}

/// The state in which five collections are open.
#[derive(Drop)]
pub enum ReportDescriptorBuilderC5 {}

impl ReportDescriptorBuilderState for ReportDescriptorBuilderC5 {
    ghost level = { 5 };

    ghost pushed = { false };
}

/// The state in which five collections are open, and a Push waits.
#[derive(Drop)]
pub enum ReportDescriptorBuilderC5Push {}

impl ReportDescriptorBuilderState for ReportDescriptorBuilderC5Push {
    ghost level = { 5 };

    ghost pushed = { true };
}

/// The state in which six collections are open.
#[derive(Drop)]
pub enum ReportDescriptorBuilderC6 {}

impl ReportDescriptorBuilderState for ReportDescriptorBuilderC6 {
    ghost level = { 6 };

    ghost pushed = { false };
}

/// The state in which six collections are open, and a Push waits.
#[derive(Drop)]
pub enum ReportDescriptorBuilderC6Push {}

impl ReportDescriptorBuilderState for ReportDescriptorBuilderC6Push {
    ghost level = { 6 };

    ghost pushed = { true };
}

/// The state in which seven collections are open.
#[derive(Drop)]
pub enum ReportDescriptorBuilderC7 {}

impl ReportDescriptorBuilderState for ReportDescriptorBuilderC7 {
    ghost level = { 7 };

    ghost pushed = { false };
}

/// The state in which seven collections are open, and a Push waits.
#[derive(Drop)]
pub enum ReportDescriptorBuilderC7Push {}

impl ReportDescriptorBuilderState for ReportDescriptorBuilderC7Push {
    ghost level = { 7 };

    ghost pushed = { true };
}

/// The state in which eight collections are open.
#[derive(Drop)]
pub enum ReportDescriptorBuilderC8 {}

impl ReportDescriptorBuilderState for ReportDescriptorBuilderC8 {
    ghost level = { 8 };

    ghost pushed = { false };
}

/// The state in which eight collections are open, and a Push waits.
#[derive(Drop)]
pub enum ReportDescriptorBuilderC8Push {}

impl ReportDescriptorBuilderState for ReportDescriptorBuilderC8Push {
    ghost level = { 8 };

    ghost pushed = { true };
}
