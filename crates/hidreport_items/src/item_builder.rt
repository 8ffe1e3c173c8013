//! Data items that are built from their flags.
ghost use Rattle.std.specs.Prelude.{◌≡◌, true, false, Some, None};
ghost use Rattle.hidreport_items.specs.Said.{flags_said, nothing_said, said_by};

use crate::builder_state::{
    IBAbsolute, IBArray, IBBitfield, IBBuffered, IBConstant, IBData, IBLinear, IBNoNull,
    IBNoPreferred, IBNoWrap, IBNonLinear, IBNonVolatile, IBNull, IBPreferred, IBRelative, IBSAbs,
    IBSArr, IBSBit, IBSData, IBSLin, IBSNull, IBSPref, IBSVol, IBSWrap, IBUndefined, IBUnsaid,
    IBVariable, IBVolatile, IBWrap,
};
use crate::feature::FeatureItem;
use crate::flags::ItemFlags;
use crate::input::InputItem;
use crate::output::OutputItem;
use std::marker::{Model, PhantomData};

/// Makes an Input, an Output or a Feature from its flags (Section 6.2.2.5).
///
/// A flag of which nothing is said is off. Each parameter is what has been said of one flag, so
/// that a flag is set at most once: a second setting doesn't compile.
///
/// `ItemBuilder::new().variable().relative().input()` is the Input of a mouse's axes.
///
/// # Examples
///
/// ```rust
/// use hidreport::hid::ItemBuilder;
///
/// let axes = ItemBuilder::new().variable().relative().input();
/// assert_eq!(rt; axes.as_bytes(alloc)?.as_slice(), b"\x81\x06".as_slice());
/// ```
#[derive(Drop)]
pub struct ItemBuilder<A, B, C, D, E, F, G, H, I>
where
    A: IBSData,
    B: IBSArr,
    C: IBSAbs,
    D: IBSWrap,
    E: IBSLin,
    F: IBSPref,
    G: IBSNull,
    H: IBSBit,
    I: IBSVol,
{
    flags: ItemFlags,
    states: PhantomData<(A, B, C, D, E, F, G, H, I)>,
}

impl<A, B, C, D, E, F, G, H, I> Model for ItemBuilder<A, B, C, D, E, F, G, H, I>
where
    A: IBSData,
    B: IBSArr,
    C: IBSAbs,
    D: IBSWrap,
    E: IBSLin,
    F: IBSPref,
    G: IBSNull,
    H: IBSBit,
    I: IBSVol,
{
    ghost use Rattle.std.specs.Prelude.{◌≡◌};
    ghost use Rattle.hidreport_items.specs.Said.{Said, flags_said, said_by};

    ghost Value = { Said };

    ghost view = { λ b. said_by A.said B.said C.said D.said E.said F.said G.said H.said I.said };

    ghost invariant = { λ b. b.flags
        ≡ flags_said (said_by A.said B.said C.said D.said E.said F.said G.said H.said I.said) };
}

impl ItemBuilder<
    IBUndefined,
    IBUndefined,
    IBUndefined,
    IBUndefined,
    IBUndefined,
    IBUndefined,
    IBUndefined,
    IBUndefined,
    IBUndefined,
> {
    /// A builder in which no flag is set yet: all are off (Section 6.2.2.5).
    pub fn new() -> Self
        ensures { result ≡ nothing_said }
    {
        ItemBuilder::with_flags(ItemFlags::default())
    }
}

impl<A, B, C, D, E, F, G, H, I> ItemBuilder<A, B, C, D, E, F, G, H, I>
where
    A: IBSData,
    B: IBSArr,
    C: IBSAbs,
    D: IBSWrap,
    E: IBSLin,
    F: IBSPref,
    G: IBSNull,
    H: IBSBit,
    I: IBSVol,
{
    /// The builder with these flags, which are those that its states say.
    fn with_flags(flags: ItemFlags) -> Self
        requires { flags
            ≡ flags_said (said_by A.said B.said C.said D.said E.said F.said G.said H.said I.said) }
        ensures { result ≡ said_by A.said B.said C.said D.said E.said F.said G.said H.said I.said }
    {
        ItemBuilder {
            flags,
            states: PhantomData,
        }
    }

    /// The Input item with these flags (Section 6.2.2.4); it has no flag 7.
    pub fn input(self) -> InputItem
        ensures flags { result ≡ record (flags_said self) { volatile = false } }
        ensures said { self
            ≡ said_by A.said B.said C.said D.said E.said F.said G.said H.said I.said }
    {
        InputItem::from_flags(self.flags)
    }

    /// The Output item with these flags (Section 6.2.2.4).
    pub fn output(self) -> OutputItem
        ensures flags { result ≡ flags_said self }
        ensures said { self
            ≡ said_by A.said B.said C.said D.said E.said F.said G.said H.said I.said }
    {
        OutputItem::from_flags(self.flags)
    }

    /// The Feature item with these flags (Section 6.2.2.4).
    pub fn feature(self) -> FeatureItem
        ensures flags { result ≡ flags_said self }
        ensures said { self
            ≡ said_by A.said B.said C.said D.said E.said F.said G.said H.said I.said }
    {
        FeatureItem::from_flags(self.flags)
    }

    /// Sets flag 0 to Constant: the fields are padding.
    pub fn constant(self) -> ItemBuilder<IBConstant, B, C, D, E, F, G, H, I>
    where
        A: IBUnsaid,
        ensures unsaid { self.constant ≡ None }
        ensures said { result ≡ record self { constant = Some true } }
    {
        ItemBuilder::with_flags(ItemFlags {
            is_constant: true,
            ..self.flags
        })
    }

    /// Sets flag 0 to Data: the fields carry data.
    pub fn data(self) -> ItemBuilder<IBData, B, C, D, E, F, G, H, I>
    where
        A: IBUnsaid,
        ensures unsaid { self.constant ≡ None }
        ensures said { result ≡ record self { constant = Some false } }
    {
        ItemBuilder::with_flags(ItemFlags {
            is_constant: false,
            ..self.flags
        })
    }

    /// Sets flag 1 to Variable: each element is a field with a usage of its own.
    pub fn variable(self) -> ItemBuilder<A, IBVariable, C, D, E, F, G, H, I>
    where
        B: IBUnsaid,
        ensures unsaid { self.variable ≡ None }
        ensures said { result ≡ record self { variable = Some true } }
    {
        ItemBuilder::with_flags(ItemFlags {
            is_variable: true,
            ..self.flags
        })
    }

    /// Sets flag 1 to Array: the elements are indexes into the usages.
    pub fn array(self) -> ItemBuilder<A, IBArray, C, D, E, F, G, H, I>
    where
        B: IBUnsaid,
        ensures unsaid { self.variable ≡ None }
        ensures said { result ≡ record self { variable = Some false } }
    {
        ItemBuilder::with_flags(ItemFlags {
            is_variable: false,
            ..self.flags
        })
    }

    /// Sets flag 2 to Relative: a value is a change since the last report.
    pub fn relative(self) -> ItemBuilder<A, B, IBRelative, D, E, F, G, H, I>
    where
        C: IBUnsaid,
        ensures unsaid { self.relative ≡ None }
        ensures said { result ≡ record self { relative = Some true } }
    {
        ItemBuilder::with_flags(ItemFlags {
            is_relative: true,
            ..self.flags
        })
    }

    /// Sets flag 2 to Absolute: a value is counted from a fixed origin.
    pub fn absolute(self) -> ItemBuilder<A, B, IBAbsolute, D, E, F, G, H, I>
    where
        C: IBUnsaid,
        ensures unsaid { self.relative ≡ None }
        ensures said { result ≡ record self { relative = Some false } }
    {
        ItemBuilder::with_flags(ItemFlags {
            is_relative: false,
            ..self.flags
        })
    }

    /// Sets flag 3 to Wrap: a value past one logical bound goes on at the other.
    pub fn wrap(self) -> ItemBuilder<A, B, C, IBWrap, E, F, G, H, I>
    where
        D: IBUnsaid,
        ensures unsaid { self.wrap ≡ None }
        ensures said { result ≡ record self { wrap = Some true } }
    {
        ItemBuilder::with_flags(ItemFlags {
            wraps: true,
            ..self.flags
        })
    }

    /// Sets flag 3 to No Wrap: a value stays within its logical bounds.
    pub fn nowrap(self) -> ItemBuilder<A, B, C, IBNoWrap, E, F, G, H, I>
    where
        D: IBUnsaid,
        ensures unsaid { self.wrap ≡ None }
        ensures said { result ≡ record self { wrap = Some false } }
    {
        ItemBuilder::with_flags(ItemFlags {
            wraps: false,
            ..self.flags
        })
    }

    /// Sets flag 4 to Non Linear: values aren't linear in what was measured.
    pub fn nonlinear(self) -> ItemBuilder<A, B, C, D, IBNonLinear, F, G, H, I>
    where
        E: IBUnsaid,
        ensures unsaid { self.nonlinear ≡ None }
        ensures said { result ≡ record self { nonlinear = Some true } }
    {
        ItemBuilder::with_flags(ItemFlags {
            is_nonlinear: true,
            ..self.flags
        })
    }

    /// Sets flag 4 to Linear: values are linear in what was measured.
    pub fn linear(self) -> ItemBuilder<A, B, C, D, IBLinear, F, G, H, I>
    where
        E: IBUnsaid,
        ensures unsaid { self.nonlinear ≡ None }
        ensures said { result ≡ record self { nonlinear = Some false } }
    {
        ItemBuilder::with_flags(ItemFlags {
            is_nonlinear: false,
            ..self.flags
        })
    }

    /// Sets flag 5 to No Preferred: the control stays as it was left.
    pub fn no_preferred_state(self) -> ItemBuilder<A, B, C, D, E, IBNoPreferred, G, H, I>
    where
        F: IBUnsaid,
        ensures unsaid { self.no_preferred_state ≡ None }
        ensures said { result ≡ record self { no_preferred_state = Some true } }
    {
        ItemBuilder::with_flags(ItemFlags {
            has_no_preferred_state: true,
            ..self.flags
        })
    }

    /// Sets flag 5 to Preferred State: the control comes back to a state when it is let go.
    pub fn preferred_state(self) -> ItemBuilder<A, B, C, D, E, IBPreferred, G, H, I>
    where
        F: IBUnsaid,
        ensures unsaid { self.no_preferred_state ≡ None }
        ensures said { result ≡ record self { no_preferred_state = Some false } }
    {
        ItemBuilder::with_flags(ItemFlags {
            has_no_preferred_state: false,
            ..self.flags
        })
    }

    /// Sets flag 6 to Null State: the control has a state in which it sends no meaningful data.
    pub fn null(self) -> ItemBuilder<A, B, C, D, E, F, IBNull, H, I>
    where
        G: IBUnsaid,
        ensures unsaid { self.null_state ≡ None }
        ensures said { result ≡ record self { null_state = Some true } }
    {
        ItemBuilder::with_flags(ItemFlags {
            has_null_state: true,
            ..self.flags
        })
    }

    /// Sets flag 6 to No Null position: the control always sends meaningful data.
    pub fn no_null(self) -> ItemBuilder<A, B, C, D, E, F, IBNoNull, H, I>
    where
        G: IBUnsaid,
        ensures unsaid { self.null_state ≡ None }
        ensures said { result ≡ record self { null_state = Some false } }
    {
        ItemBuilder::with_flags(ItemFlags {
            has_null_state: false,
            ..self.flags
        })
    }

    /// Sets flag 8 to Buffered Bytes: the field is a stream of bytes.
    pub fn buffered_bytes(self) -> ItemBuilder<A, B, C, D, E, F, G, IBBuffered, I>
    where
        H: IBUnsaid,
        ensures unsaid { self.buffered_bytes ≡ None }
        ensures said { result ≡ record self { buffered_bytes = Some true } }
    {
        ItemBuilder::with_flags(ItemFlags {
            is_buffered_bytes: true,
            ..self.flags
        })
    }

    /// Sets flag 8 to Bit Field: the field is a number of bits.
    pub fn bitfield(self) -> ItemBuilder<A, B, C, D, E, F, G, IBBitfield, I>
    where
        H: IBUnsaid,
        ensures unsaid { self.buffered_bytes ≡ None }
        ensures said { result ≡ record self { buffered_bytes = Some false } }
    {
        ItemBuilder::with_flags(ItemFlags {
            is_buffered_bytes: false,
            ..self.flags
        })
    }

    /// Sets flag 7 to Volatile, which an Input doesn't have: the value may change without the host.
    pub fn volatile(self) -> ItemBuilder<A, B, C, D, E, F, G, H, IBVolatile>
    where
        I: IBUnsaid,
        ensures unsaid { self.volatile ≡ None }
        ensures said { result ≡ record self { volatile = Some true } }
    {
        ItemBuilder::with_flags(ItemFlags {
            is_volatile: true,
            ..self.flags
        })
    }

    /// Sets flag 7 to Non Volatile: the value changes by the host alone.
    pub fn non_volatile(self) -> ItemBuilder<A, B, C, D, E, F, G, H, IBNonVolatile>
    where
        I: IBUnsaid,
        ensures unsaid { self.volatile ≡ None }
        ensures said { result ≡ record self { volatile = Some false } }
    {
        ItemBuilder::with_flags(ItemFlags {
            is_volatile: false,
            ..self.flags
        })
    }
}
