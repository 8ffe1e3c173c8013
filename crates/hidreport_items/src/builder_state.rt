//! The states of the flags of an item that is being built (Section 6.2.2.5).
ghost use Rattle.std.specs.Prelude.{◌≡◌, Bool, true, false, Option, Some, None, refl};

/// The state of one flag while a data item is being built (Section 6.2.2.5).
pub trait IBState: Drop {
    /// Whether the flag is on, if that has been said.
    ghost said: { Option Bool };
}

/// The state of a flag that is not set yet, from which a setter starts.
pub trait IBUnsaid: IBState {
    /// No state of which something has been said is one of them.
    ghost unsaid: { Self.said ≡ None };
}

/// The state of a flag that is not set yet: it is off, and can be set once.
#[derive(Drop)]
pub enum IBUndefined {}

impl IBState for IBUndefined {
    ghost said = { None };
}

impl IBUnsaid for IBUndefined {
    ghost unsaid = { refl };
}

/// The states of flag 0: Data, Constant, or not set yet.
pub trait IBSData: IBState {}

impl IBSData for IBUndefined {}

/// Flag 0 is set to Constant: the fields are padding.
#[derive(Drop)]
pub enum IBConstant {}

impl IBState for IBConstant {
    ghost said = { Some true };
}

impl IBSData for IBConstant {}

/// Flag 0 is set to Data: the fields carry data.
#[derive(Drop)]
pub enum IBData {}

impl IBState for IBData {
    ghost said = { Some false };
}

impl IBSData for IBData {}

/// The states of flag 1: Array, Variable, or not set yet.
pub trait IBSArr: IBState {}

impl IBSArr for IBUndefined {}

/// Flag 1 is set to Variable: a field for each element.
#[derive(Drop)]
pub enum IBVariable {}

impl IBState for IBVariable {
    ghost said = { Some true };
}

impl IBSArr for IBVariable {}

/// Flag 1 is set to Array: the elements are indexes into the usages.
#[derive(Drop)]
pub enum IBArray {}

impl IBState for IBArray {
    ghost said = { Some false };
}

impl IBSArr for IBArray {}

/// The states of flag 2: Absolute, Relative, or not set yet.
pub trait IBSAbs: IBState {}

impl IBSAbs for IBUndefined {}

/// Flag 2 is set to Relative: values are changes since the last report.
#[derive(Drop)]
pub enum IBRelative {}

impl IBState for IBRelative {
    ghost said = { Some true };
}

impl IBSAbs for IBRelative {}

/// Flag 2 is set to Absolute: values are counted from a fixed origin.
#[derive(Drop)]
pub enum IBAbsolute {}

impl IBState for IBAbsolute {
    ghost said = { Some false };
}

impl IBSAbs for IBAbsolute {}

/// The states of flag 3: No Wrap, Wrap, or not set yet.
pub trait IBSWrap: IBState {}

impl IBSWrap for IBUndefined {}

/// Flag 3 is set to Wrap: values go on at the other bound.
#[derive(Drop)]
pub enum IBWrap {}

impl IBState for IBWrap {
    ghost said = { Some true };
}

impl IBSWrap for IBWrap {}

/// Flag 3 is set to No Wrap: values stay within their bounds.
#[derive(Drop)]
pub enum IBNoWrap {}

impl IBState for IBNoWrap {
    ghost said = { Some false };
}

impl IBSWrap for IBNoWrap {}

/// The states of flag 4: Linear, Non Linear, or not set yet.
pub trait IBSLin: IBState {}

impl IBSLin for IBUndefined {}

/// Flag 4 is set to Non Linear: values aren't linear in what was measured.
#[derive(Drop)]
pub enum IBNonLinear {}

impl IBState for IBNonLinear {
    ghost said = { Some true };
}

impl IBSLin for IBNonLinear {}

/// Flag 4 is set to Linear: values are linear in what was measured.
#[derive(Drop)]
pub enum IBLinear {}

impl IBState for IBLinear {
    ghost said = { Some false };
}

impl IBSLin for IBLinear {}

/// The states of flag 5: Preferred State, No Preferred, or not set yet.
pub trait IBSPref: IBState {}

impl IBSPref for IBUndefined {}

/// Flag 5 is set to No Preferred: the control stays as it was left.
#[derive(Drop)]
pub enum IBNoPreferred {}

impl IBState for IBNoPreferred {
    ghost said = { Some true };
}

impl IBSPref for IBNoPreferred {}

/// Flag 5 is set to Preferred State: the control comes back to a state.
#[derive(Drop)]
pub enum IBPreferred {}

impl IBState for IBPreferred {
    ghost said = { Some false };
}

impl IBSPref for IBPreferred {}

/// The states of flag 6: No Null position, Null State, or not set yet.
pub trait IBSNull: IBState {}

impl IBSNull for IBUndefined {}

/// Flag 6 is set to Null State: the control has a null state.
#[derive(Drop)]
pub enum IBNull {}

impl IBState for IBNull {
    ghost said = { Some true };
}

impl IBSNull for IBNull {}

/// Flag 6 is set to No Null position: the control has no null state.
#[derive(Drop)]
pub enum IBNoNull {}

impl IBState for IBNoNull {
    ghost said = { Some false };
}

impl IBSNull for IBNoNull {}

/// The states of flag 8: Bit Field, Buffered Bytes, or not set yet.
pub trait IBSBit: IBState {}

impl IBSBit for IBUndefined {}

/// Flag 8 is set to Buffered Bytes: the field is a stream of bytes.
#[derive(Drop)]
pub enum IBBuffered {}

impl IBState for IBBuffered {
    ghost said = { Some true };
}

impl IBSBit for IBBuffered {}

/// Flag 8 is set to Bit Field: the field is a number of bits.
#[derive(Drop)]
pub enum IBBitfield {}

impl IBState for IBBitfield {
    ghost said = { Some false };
}

impl IBSBit for IBBitfield {}

/// The states of flag 7: Non Volatile, Volatile, or not set yet.
pub trait IBSVol: IBState {}

impl IBSVol for IBUndefined {}

/// Flag 7 is set to Volatile: the value may change without the host.
#[derive(Drop)]
pub enum IBVolatile {}

impl IBState for IBVolatile {
    ghost said = { Some true };
}

impl IBSVol for IBVolatile {}

/// Flag 7 is set to Non Volatile: the value changes by the host alone.
#[derive(Drop)]
pub enum IBNonVolatile {}

impl IBState for IBNonVolatile {
    ghost said = { Some false };
}

impl IBSVol for IBNonVolatile {}
